//! Digests are the worked ones, and fields are written and read by their bytes.

use ledger_bytes::{Bad, Bytes, Digest, FieldReader, FieldWriter, Items, Sha, Toy, TreeHash};
use std::test::Fail;

// The digest of "abc" in FIPS 180-4's examples.
const ABC: [u8; 32] = [
    0xba, 0x78, 0x16, 0xbf, 0x8f, 0x01, 0xcf, 0xea, 0x41, 0x41, 0x40, 0xde, 0x5d, 0xae, 0x22, 0x23,
    0xb0, 0x03, 0x61, 0xa3, 0x96, 0x17, 0x7a, 0x9c, 0xb4, 0x10, 0xff, 0x61, 0xf2, 0x00, 0x15, 0xad,
];

// The digest of no bytes.
const NOTHING: [u8; 32] = [
    0xe3, 0xb0, 0xc4, 0x42, 0x98, 0xfc, 0x1c, 0x14, 0x9a, 0xfb, 0xf4, 0xc8, 0x99, 0x6f, 0xb9, 0x24,
    0x27, 0xae, 0x41, 0xe4, 0x64, 0x9b, 0x93, 0x4c, 0xa4, 0x95, 0x99, 0x1b, 0x78, 0x52, 0xb8, 0x55,
];

#[test]
fn hashes_in_pieces(rt: HostRuntime) {
    let mut hasher = Sha::start(b'a');
    hasher.add(b"b");
    hasher.add(b"c");
    let mut toy = Toy::start(200);
    toy.add([50, 10].as_slice());
    let mut four = [0; 32];
    four[31] = 4;
    assert_eq!(rt;
        (hasher.end(), Sha::empty(), toy.end(), Toy::empty()),
        (Digest(ABC), Digest(NOTHING), Digest(four), Digest([0; 32]))
    );
}

#[test]
fn keeps_bytes_and_fields(rt: HostRuntime) -> Result<(), Fail> {
    let alloc = rt.alloc();
    let mut writer = FieldWriter::new(alloc);
    writer.put_u8(1)?;
    writer.put_u16(0x0203)?;
    writer.put_u32(0x0405_0607)?;
    writer.put_u64(0x0809_0a0b_0c0d_0e0f)?;
    writer.put_slice(b"ab")?;
    let fields = writer.finish();
    let wanted = [
        1, 2, 3, 4, 5, 6, 7, 8, 9, 10, 11, 12, 13, 14, 15, b'a', b'b',
    ];
    let copy = Bytes::copy_of(alloc, fields.as_slice())?;
    let whole = Bytes::of(wanted.to_vec(alloc)?);
    let items = Items::of(wanted.to_vec(alloc)?);
    let wanted = wanted.as_slice();
    assert_eq!(rt;
        (copy.as_slice(), whole.as_slice(), items.as_slice()),
        (wanted, wanted, wanted)
    );
    assert_eq!(rt; items.into_vec().as_slice(), wanted);
    Ok(())
}

#[test]
fn reads_fields(rt: HostRuntime) {
    let mut bytes = [0xee; 50];
    for (i, byte) in bytes.iter_mut().enumerate() {
        *byte = i as u8;
    }
    let mut reader = FieldReader::new(bytes.as_slice());
    assert_eq!(rt;
        (
            reader.take_u8(),
            reader.take_u16(),
            reader.take_u32(),
            reader.take_u64(),
            reader.take_digest().map(|d| d.0[31])
        ),
        (
            Ok(0),
            Ok(0x0102),
            Ok(0x0304_0506),
            Ok(0x0708_090a_0b0c_0d0e),
            Ok(46)
        )
    );
    assert_eq!(rt;
        (
            reader.end(),
            reader.take_u32(),
            reader.take_slice(3),
            reader.end()
        ),
        (
            Err(Bad::Trailing { at: 47 }),
            Err(Bad::Short { at: 50 }),
            Ok([47, 48, 49].as_slice()),
            Ok(())
        )
    );
}
