use crate::{
    Coll, CollFault, CollText, GroupId, Name, NameFault, Oid, OidText, Pos, Snap, decimal,
    decode_coll, decode_oid, digit, encode_coll, encode_oid, group, hexadecimal, order_hash,
};
use std::alloc::Global;
use std::cmp::Ordering;
use std::process::Abort;
use std::test::Fail;

#[test]
fn names_have_any_bytes_up_to_1024(rt: HostRuntime) -> Result<(), Fail> {
    let longest = vec![in rt.alloc(); b'_'; 1024]?;
    let name = Name::new(rt.alloc(), &longest)
        .ok()
        .ok_or("a name of 1,024 bytes")?;
    assert_eq!(rt; name.copy()?.bytes(), longest.as_slice());
    let longer = vec![in rt.alloc(); b'a'; 1025]?;
    let refused = Name::new(rt.alloc(), &longer).err();
    assert_eq!(rt; refused, Some(NameFault::TooLong { field: 0 }));
    Ok(())
}

fn object(
    alloc: Global,
    name: &[u8],
    key: &[u8],
    nspace: &[u8],
    snap: Snap,
    hash: u32,
    pool: Option<u64>,
) -> Result<Oid, NameFault> {
    Ok(Oid {
        name: Name::new(alloc, name)?,
        key: Name::new(alloc, key)?,
        nspace: Name::new(alloc, nspace)?,
        snap,
        hash,
        pool,
    })
}

// The object and the text are each other's.
fn are_one(rt: &impl Abort, alloc: Global, oid: &Oid, text: &str) -> Result<(), Fail> {
    let written = encode_oid(alloc, oid)?;
    assert!(rt; written.slice() == text.as_bytes(), "{text}");
    let read = decode_oid(alloc, text.as_bytes())?;
    assert!(rt; read == *oid, "{text}");
    let copy = read.copy()?;
    assert!(rt; copy == *oid, "{text}");
    Ok(())
}

#[test]
fn objects_have_these_texts(rt: HostRuntime) -> Result<(), Fail> {
    let alloc = rt.alloc();
    let plain = [
        ("a__head_00000001__1", 1u32),
        ("a__head_00000010__1", 16),
        ("a__head_FFFFFFFF__1", 0xFFFF_FFFF),
    ];
    for (text, hash) in plain {
        let oid = object(alloc, b"a", b"", b"", Snap::Head, hash, Some(1))?;
        are_one(&rt, alloc, &oid, text)?;
    }
    let whole = object(
        alloc,
        b"rbd.1",
        b"k.1",
        b"ns",
        Snap::Dir,
        0x7C2A_9D10,
        Some(255),
    )?;
    are_one(&rt, alloc, &whole, "rbd.1_k.1_snapdir_7C2A9D10_ns_ff")?;
    let bare = object(alloc, b"", b"", b"", Snap::Id(26), 0xA1B2, None)?;
    are_one(&rt, alloc, &bare, "__1a_0000A1B2__none")?;
    let zeros = object(alloc, b"c", b"", b"", Snap::Id(0), 0, Some(0))?;
    are_one(&rt, alloc, &zeros, "c__0_00000000__0")
}

// The name, the key and the namespace have these bytes and these spellings.
fn are_spelled(rt: &impl Abort, alloc: Global, bytes: [&[u8]; 3], text: &str) -> Result<(), Fail> {
    let oid = object(
        alloc,
        bytes[0],
        bytes[1],
        bytes[2],
        Snap::Head,
        0xA1B2,
        Some(3),
    )?;
    are_one(rt, alloc, &oid, text)
}

#[test]
fn other_bytes_are_escaped(rt: HostRuntime) -> Result<(), Fail> {
    let cases: [([&[u8]; 3], &str); 10] = [
        (
            [b"DIR_a/b_c\\", b"k.1", b"n s"],
            "\\da\\sb\\uc\\\\_k.1_head_0000A1B2_n\\x20s_3",
        ),
        (
            [b"a/b", b"_", b"\x00\x01"],
            "a\\sb_\\u_head_0000A1B2_\\n\\x01_3",
        ),
        (
            [b"\x7f\xff", b"\x80", b" ~!"],
            "\\x7f\\xff_\\x80_head_0000A1B2_\\x20~!_3",
        ),
        ([b".", b".", b".."], "\\._._head_0000A1B2_.._3"),
        (
            [b"..a", b"DIR_", b"DIR_a"],
            "\\..a_DIR\\u_head_0000A1B2_DIR\\ua_3",
        ),
        ([b"DIR_", b"", b""], "\\d__head_0000A1B2__3"),
        ([b"DIR_.DIR_", b"", b""], "\\d.DIR\\u__head_0000A1B2__3"),
        ([b"DIR", b"DI", b"DIRx_"], "DIR_DI_head_0000A1B2_DIRx\\u_3"),
        (
            [b"\\d", b"\\.", b"\\x5f"],
            "\\\\d_\\\\._head_0000A1B2_\\\\x5f_3",
        ),
        (
            [b"rbd_data.1f", b"\t", b"\n"],
            "rbd\\udata.1f_\\x09_head_0000A1B2_\\x0a_3",
        ),
    ];
    for (bytes, text) in cases {
        are_spelled(&rt, rt.alloc(), bytes, text)?;
    }
    Ok(())
}

// Each text is refused for this fault.
fn are_refused(rt: &impl Abort, alloc: Global, cases: &[(&str, NameFault)]) -> Result<(), Fail> {
    for (text, fault) in cases {
        let refused = decode_oid(alloc, text.as_bytes()).err();
        assert_eq!(rt; refused, Some(*fault), "{text}");
    }
    Ok(())
}

#[test]
fn texts_of_other_fields_are_refused(rt: HostRuntime) -> Result<(), Fail> {
    let cases = [
        ("", NameFault::BadField { n: 6 }),
        ("a__head", NameFault::BadField { n: 6 }),
        ("a__head_00000001__1_", NameFault::BadField { n: 6 }),
        ("a___head_00000001__1", NameFault::BadField { n: 6 }),
        ("\\x5f_head", NameFault::BadField { n: 6 }),
        ("a__Head_0000001__1", NameFault::BadField { n: 2 }),
        ("a___00000001__1", NameFault::BadField { n: 2 }),
        ("a__01_00000001__1", NameFault::BadField { n: 2 }),
        ("a__1F_00000001__1", NameFault::BadField { n: 2 }),
        (
            "a__10000000000000000_00000001__1",
            NameFault::BadField { n: 2 },
        ),
        ("a__head_0000001__1", NameFault::BadField { n: 3 }),
        ("a__head_000000001__1", NameFault::BadField { n: 3 }),
        ("a__head_0000000a__1", NameFault::BadField { n: 3 }),
        ("a__head_+0000001__", NameFault::BadField { n: 3 }),
        ("a__head_0000000A__", NameFault::BadField { n: 5 }),
        ("a__head_0000000A__+1", NameFault::BadField { n: 5 }),
        ("a__head_0000000A__None", NameFault::BadField { n: 5 }),
    ];
    are_refused(&rt, rt.alloc(), &cases)
}

#[test]
fn other_spellings_are_refused_at_their_first_place(rt: HostRuntime) -> Result<(), Fail> {
    let cases = [
        ("\\x5f__head_00000001__1", NameFault::BadEscape { at: 0 }),
        ("DIR\\ux__head_00000001__1", NameFault::BadEscape { at: 0 }),
        (".a__head_00000001__1", NameFault::BadEscape { at: 0 }),
        ("\\d.\\.__head_00000001__1", NameFault::BadEscape { at: 3 }),
        ("a\\d__head_00000001__1", NameFault::BadEscape { at: 1 }),
        ("\\.\\d__head_00000001__1", NameFault::BadEscape { at: 2 }),
        ("a_\\d_head_00000001__1", NameFault::BadEscape { at: 2 }),
        ("a_\\._head_00000001__1", NameFault::BadEscape { at: 2 }),
        ("a_k/_head_00000001__1", NameFault::BadEscape { at: 3 }),
        ("a_k_head_00000001_n s_1", NameFault::BadEscape { at: 19 }),
        (
            "\\\\_\\u_head_00000001_\\x20\\x21_1",
            NameFault::BadEscape { at: 24 },
        ),
        ("a b_k\\_head_00000001__1", NameFault::BadEscape { at: 1 }),
        ("a_k\\_head_00000001__1", NameFault::BadEscape { at: 3 }),
        ("\\x2__head_00000001__1", NameFault::BadEscape { at: 0 }),
        ("\\x0A__head_00000001__1", NameFault::BadEscape { at: 0 }),
        ("\\x00__head_00000001__1", NameFault::BadEscape { at: 0 }),
        ("\\x2f__head_00000001__1", NameFault::BadEscape { at: 0 }),
        ("\\x5c__head_00000001__1", NameFault::BadEscape { at: 0 }),
        ("\\x61__head_00000001__1", NameFault::BadEscape { at: 0 }),
        ("\\a__Head_0000001__1", NameFault::BadEscape { at: 0 }),
        ("a\u{7f}__head_00000001__1", NameFault::BadEscape { at: 1 }),
    ];
    are_refused(&rt, rt.alloc(), &cases)
}

/// A text with a field of this length: the name, the key or the namespace.
fn long_text(alloc: Global, field: u8, len: usize) -> Result<Vec<u8>, Fail> {
    let long = vec![in alloc; b'a'; len]?;
    let mut text = Vec::new(alloc);
    if field == 0 {
        text.extend_from_slice(&long)?;
    }
    text.push(b'_')?;
    if field == 1 {
        text.extend_from_slice(&long)?;
    }
    text.extend_from_slice(b"_head_00000001_")?;
    if field == 4 {
        text.extend_from_slice(&long)?;
    }
    text.extend_from_slice(b"_1")?;
    Ok(text)
}

#[test]
fn fields_have_at_most_1024_bytes(rt: HostRuntime) -> Result<(), Fail> {
    for field in [0, 1, 4] {
        let longest = long_text(rt.alloc(), field, 1024)?;
        assert!(rt; decode_oid(rt.alloc(), &longest).is_ok());
        let longer = long_text(rt.alloc(), field, 1025)?;
        let refused = decode_oid(rt.alloc(), &longer).err();
        assert_eq!(rt; refused, Some(NameFault::TooLong { field }));
    }
    Ok(())
}

#[test]
fn a_field_is_as_long_as_its_bytes_are_many(rt: HostRuntime) -> Result<(), Fail> {
    let longest = vec![in rt.alloc(); b'_'; 1024]?;
    let oid = object(rt.alloc(), &longest, b"", b"", Snap::Head, 1, Some(1))?;
    let text = encode_oid(rt.alloc(), &oid)?;
    assert_eq!(rt; text.slice().len(), 2066usize);
    assert!(rt; decode_oid(rt.alloc(), text.slice())? == oid);
    let mut longer = long_text(rt.alloc(), 0, 1025)?;
    longer.push(b' ')?;
    let refused = decode_oid(rt.alloc(), &longer).err();
    assert_eq!(rt; refused, Some(NameFault::TooLong { field: 0 }));
    Ok(())
}

#[test]
fn collections_have_these_texts(rt: HostRuntime) -> Result<(), Fail> {
    let cases = [
        ("meta", Coll::Meta),
        (
            "1.0_head",
            Coll::Pg {
                pool: 1,
                seed: 0,
                temp: false,
            },
        ),
        (
            "1.0_TEMP",
            Coll::Pg {
                pool: 1,
                seed: 0,
                temp: true,
            },
        ),
        (
            "2.10_head",
            Coll::Pg {
                pool: 2,
                seed: 16,
                temp: false,
            },
        ),
        (
            "10.ffffffff_TEMP",
            Coll::Pg {
                pool: 10,
                seed: 0xFFFF_FFFF,
                temp: true,
            },
        ),
    ];
    for (text, coll) in cases {
        let written = encode_coll(rt.alloc(), &coll)?;
        assert_eq!(rt; written.slice(), text.as_bytes());
        assert!(rt; decode_coll(text.as_bytes()) == Ok(coll), "{text}");
    }
    let refused = [
        "",
        "Meta",
        "02.0_head",
        "2.00_head",
        "2.0_Head",
        "2.0_temp",
        "2.0",
        "2_0.head",
        ".0_head",
        "2._head",
        "2.A_head",
        "2.100000000_head",
        "18446744073709551616.0_head",
        "+2.0_head",
        "2.0_head_",
        "meta\n",
    ];
    for text in refused {
        assert!(rt;
            decode_coll(text.as_bytes()) == Err(CollFault::NotColl),
            "{text}"
        );
    }
    Ok(())
}

#[test]
fn numbers_are_digits_without_leading_zeros(rt: HostRuntime) {
    let cases = [
        ("0", Some(0), Some(0)),
        ("10", Some(10), Some(16)),
        ("18446744073709551615", Some(u64::MAX), None),
        ("18446744073709551616", None, None),
        ("ffffffffffffffff", None, Some(u64::MAX)),
        ("10000000000000000", Some(10_000_000_000_000_000), None),
        ("1a", None, Some(26)),
        ("1A", None, None),
        ("1g", None, None),
        ("00", None, None),
        ("01", None, None),
        ("", None, None),
        ("+1", None, None),
        ("-1", None, None),
        (" 1", None, None),
    ];
    for (text, in_decimal, in_hexadecimal) in cases {
        assert_eq!(rt; decimal(text.as_bytes()), in_decimal, "{text}");
        assert_eq!(rt; hexadecimal(text.as_bytes()), in_hexadecimal, "{text}");
    }
}

#[test]
fn hashes_go_by_their_last_digit_first(rt: HostRuntime) {
    let digits = [0, 1, 13, 9, 10, 2, 12, 7];
    for level in 0..8u8 {
        assert_eq!(rt; digit(0x7C2A_9D10, level), digits[level as usize]);
    }
    assert!(rt; order_hash(0x10, 0x01) == Ordering::Less);
    assert!(rt; order_hash(0x21, 0x11) == Ordering::Greater);
    assert!(rt; order_hash(0x8000_0000, 0x7FFF_FFFF) == Ordering::Less);
    assert!(rt; order_hash(7, 7) == Ordering::Equal);
}

#[test]
fn a_collection_and_its_temporary_one_share_a_group(rt: HostRuntime) {
    for temp in [false, true] {
        let coll = Coll::Pg {
            pool: 7,
            seed: 2,
            temp,
        };
        assert!(rt; group(&coll) == GroupId::Pg(7, 2));
    }
    assert!(rt; group(&Coll::Meta) == GroupId::Meta);
}

#[test]
fn small_values_are_kept_and_compared(rt: HostRuntime) -> Result<(), Fail> {
    let bytes: Vec<u8> = OidText::new(rt.alloc(), b"any bytes\n")?.into();
    assert_eq!(rt; CollText::from(bytes).slice(), b"any bytes\n".as_slice());
    let first = Pos {
        seq: 1,
        txn: 2,
        op: 3,
    };
    assert!(rt;
        first
            < Pos {
                seq: 1,
                txn: 3,
                op: 0
            }
    );
    assert!(rt;
        Coll::Meta
            < Coll::Pg {
                pool: 0,
                seed: 0,
                temp: false
            }
    );
    Ok(())
}
