use crate::Draws;
use std::test::Fail;

#[test]
fn the_same_numbers_come_for_a_seed(rt: HostRuntime) -> Result<(), Fail> {
    let mut draws = Draws::new(7);
    for drawn in [2118330556, 4104526463, 3893713506, 1171437346] {
        assert_eq!(rt; draws.draw(), drawn);
    }
    Ok(())
}

#[test]
fn the_greatest_seed_is_one(rt: HostRuntime) -> Result<(), Fail> {
    let mut draws = Draws::new(u64::MAX);
    for drawn in [3149104977, 2980664687] {
        assert_eq!(rt; draws.draw(), drawn);
    }
    Ok(())
}
