use crate::{EntryHead, FrameFault, RingHead, need, read_entry, read_head, seal, write_head};
use std::test::Fail;

const FSID: [u8; 16] = *b"\x10\x11\x12\x13\x14\x15\x16\x17\x18\x19\x1a\x1b\x1c\x1d\x1e\x1f";

// The SHA-1 of the front's first 44 bytes and `hello`, by another program.
const ENTRY_DIGEST: [u8; 20] =
    *b"\x23\xad\x95\xab\x60\x36\xab\xba\x2e\x1a\xe4\xb3\xba\x9e\x50\x20\x7a\x0e\xc4\x9b";

// The SHA-1 of the header's first 64 bytes, by another program.
const HEAD_DIGEST: [u8; 20] =
    *b"\xe0\x57\x16\x08\x69\xef\xcf\xe8\xfa\xac\x30\x8a\x15\xcf\xfd\xae\x4f\x24\x54\x4d";

const HEAD: RingHead = RingHead {
    fsid: FSID,
    generation: 4,
    epoch: 2,
    start: 12288,
    seq: 9,
    size: 1048576,
};

// Entry 7 of epoch 3 at place 8,192, with the payload `hello`.
fn sealed() -> [u8; 4096] {
    let mut bytes = [0xff; 4096];
    let into: &mut [u8] = &mut bytes;
    seal(&FSID, 8192, 7, 3, b"hello", into);
    bytes
}

#[test]
fn needs_whole_blocks(rt: HostRuntime) {
    for (len, want) in [
        (0, 4096),
        (3968, 4096),
        (3969, 8192),
        (8064, 8192),
        (8065, 12288),
    ] {
        assert_eq!(rt; need(len), want, "at {len}");
    }
}

#[test]
fn seals_a_known_entry(rt: HostRuntime) -> Result<(), Fail> {
    let bytes = sealed();
    assert_eq!(rt;
        &bytes[..16],
        b"FSENTRY1\x10\x11\x12\x13\x14\x15\x16\x17".as_slice()
    );
    assert_eq!(rt;
        &bytes[16..32],
        b"\0\0\0\0\0\0\x20\0\0\0\0\0\0\0\0\x07".as_slice()
    );
    assert_eq!(rt; &bytes[32..44], b"\0\0\0\0\0\0\0\x03\0\0\0\x05".as_slice());
    assert_eq!(rt; &bytes[44..64], ENTRY_DIGEST.as_slice());
    assert_eq!(rt; &bytes[64..72], b"hello\0\0\0".as_slice());
    assert!(rt; bytes[72..4032].iter().all(|b| *b == 0));
    assert_eq!(rt; &bytes[4032..], &bytes[..64]);
    let head = EntryHead::read(&bytes);
    assert_eq!(rt; (head.pos, head.seq, head.epoch, head.len), (8192, 7, 3, 5));
    assert_eq!(rt; head.digest, ENTRY_DIGEST);
    let framed = read_entry(&bytes, &FSID, 8192)?;
    assert_eq!(rt; (framed.seq, framed.epoch, framed.size), (7, 3, 4096));
    assert_eq!(rt; framed.payload, b"hello".as_slice());
    Ok(())
}

// Each byte that is changed, and what is then read.
#[test]
fn refuses_changed_entries(rt: HostRuntime) {
    for (at, want) in [
        (0, Some(FrameFault::NoMagic)),
        (7, Some(FrameFault::NoMagic)),
        (8, Some(FrameFault::WrongRing)),
        (15, Some(FrameFault::WrongRing)),
        (16, Some(FrameFault::WrongPlace)),
        (23, Some(FrameFault::WrongPlace)),
        (24, Some(FrameFault::BadDigest)),
        (39, Some(FrameFault::BadDigest)),
        (40, Some(FrameFault::Short)),
        (43, Some(FrameFault::BadDigest)),
        (44, Some(FrameFault::BadDigest)),
        (64, Some(FrameFault::BadDigest)),
        (68, Some(FrameFault::BadDigest)),
        (69, None),
        (4031, None),
        (4032, Some(FrameFault::BadFooter)),
        (4095, Some(FrameFault::BadFooter)),
    ] {
        let mut bytes = sealed();
        assert!(rt; at < 4096);
        bytes[at] ^= 0x40;
        assert_eq!(rt; read_entry(&bytes, &FSID, 8192).err(), want, "at {at}");
    }
}

// The first fault is told where several hold.
#[test]
fn tells_the_first_fault(rt: HostRuntime) {
    let mut bytes = sealed();
    let front = &bytes[..63];
    let most = &bytes[..4095];
    assert_eq!(rt;
        read_entry(front, &[0; 16], 12288).err(),
        Some(FrameFault::Short)
    );
    assert_eq!(rt;
        read_entry(most, &FSID, 12288).err(),
        Some(FrameFault::WrongPlace)
    );
    assert_eq!(rt;
        read_entry(most, &FSID, 8192).err(),
        Some(FrameFault::Short)
    );
    assert_eq!(rt;
        read_entry(&bytes, &[0; 16], 12288).err(),
        Some(FrameFault::WrongRing)
    );
    bytes[4095] = 0;
    bytes[64] = 0;
    assert_eq!(rt;
        read_entry(&bytes, &FSID, 8192).err(),
        Some(FrameFault::BadDigest)
    );
    bytes[0] = 0;
    assert_eq!(rt;
        read_entry(&bytes, &[0; 16], 12288).err(),
        Some(FrameFault::NoMagic)
    );
}

#[test]
fn writes_a_known_header(rt: HostRuntime) {
    let mut bytes = [0xff; 4096];
    write_head(&HEAD, &mut bytes);
    assert_eq!(rt; &bytes[..8], b"FSRING01".as_slice());
    assert_eq!(rt; &bytes[8..24], FSID.as_slice());
    assert_eq!(rt;
        &bytes[24..40],
        b"\0\0\0\0\0\0\0\x04\0\0\0\0\0\0\0\x02".as_slice()
    );
    assert_eq!(rt;
        &bytes[40..56],
        b"\0\0\0\0\0\0\x30\0\0\0\0\0\0\0\0\x09".as_slice()
    );
    assert_eq!(rt; &bytes[56..64], b"\0\0\0\0\0\x10\0\0".as_slice());
    assert_eq!(rt; &bytes[64..84], HEAD_DIGEST.as_slice());
    assert!(rt; bytes[84..].iter().all(|b| *b == 0));
    assert_eq!(rt; read_head(&bytes, 1048576), Some(HEAD));
    assert_eq!(rt; read_head(&bytes, 1052672), None);
    for (at, sealed) in [
        (0, false),
        (8, false),
        (63, false),
        (64, false),
        (83, false),
        (84, true),
        (4095, true),
    ] {
        let mut changed = bytes;
        assert!(rt; at < 4096);
        changed[at] ^= 1;
        assert_eq!(rt; read_head(&changed, 1048576).is_some(), sealed, "at {at}");
    }
}

// Headers that are whole, with the device's size, and whether they are read.
#[test]
fn reads_headers_that_fit_the_device(rt: HostRuntime) {
    for (start, seq, size, fits) in [
        (8192, 1, 16384, true),
        (12288, 1 << 63, 16384, true),
        (16384, 1, 16384, false),
        (4096, 1, 16384, false),
        (8193, 1, 16384, false),
        (8192, 0, 16384, false),
        (8192, (1 << 63) + 1, 16384, false),
        (8192, 1, 12288, false),
        (8192, 1, 16385, false),
        (8192, 1, 1 << 40, true),
        (8192, 1, (1 << 40) + 4096, false),
    ] {
        let head = RingHead {
            fsid: FSID,
            generation: 1,
            epoch: 1,
            start,
            seq,
            size,
        };
        let mut bytes = [0; 4096];
        write_head(&head, &mut bytes);
        assert_eq!(rt;
            read_head(&bytes, size),
            if fits { Some(head) } else { None },
            "{start} {seq} {size}"
        );
    }
}
