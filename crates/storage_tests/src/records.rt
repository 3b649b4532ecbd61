//! The bytes that show who placed a journal are the worked ones, and stand in a block where its place says.

use block_file::{BLOCK_HEAD_LEN, BlockWriter, FIRST_GATE};
use hex::FromHex;
use journal_record::{Approval, HEADER_LEN, approval_digest, who_bytes};
use ledger_bytes::{Bytes, Digest};
use std::test::Fail;

fn digest(text: &str) -> Result<Digest, hex::FromHexError> {
    Ok(Digest(<[u8; 32]>::from_hex(text)?))
}

#[test]
fn bytes_of_approvals(rt: HostRuntime) -> Result<(), Fail> {
    let alloc = rt.alloc();
    let operator =
        "0101010101010101010101010101010101010101010101010101010101010101e90cbb0138367a4957a7df2342d6e20b6c004dabd3ce9a7422a38647ebcf69cd";
    let regulator =
        "020202020202020202020202020202020202020202020202020202020202020221844395d669c0f0d68fc9c363fae3522d0d440e0b8733a86f50666aca19d299";
    let wanted =
        "0000000000400101010101010101010101010101010101010101010101010101010101010101e90cbb0138367a4957a7df2342d6e20b6c004dabd3ce9a7422a38647ebcf69cd000000010040020202020202020202020202020202020202020202020202020202020202020221844395d669c0f0d68fc9c363fae3522d0d440e0b8733a86f50666aca19d299";
    let given = [
        Approval {
            member: 0,
            key: Some(Digest([1; 32])),
            proof: Bytes::copy_of(alloc, &<[u8; 64]>::from_hex(operator)?)?,
        },
        Approval {
            member: 1,
            key: None,
            proof: Bytes::copy_of(alloc, &<[u8; 64]>::from_hex(regulator)?)?,
        },
    ];
    let whole = hex::encode(alloc, who_bytes(alloc, &given)?.as_slice())?;
    assert_eq!(rt; whole.as_str(), wanted);
    let mut block = BlockWriter::new(alloc);
    let place = block.put(FIRST_GATE, &[0; HEADER_LEN], b"abc", &given)?;
    assert_eq!(rt; (place.content_at, place.content_len), (287, 3));
    assert_eq!(rt; (place.who_at, place.who_len), (290, 140));
    let who = block.as_slice().get(BLOCK_HEAD_LEN + HEADER_LEN + 7..);
    let text = hex::encode(alloc, who.unwrap_or(&[]))?;
    let operator = "117bd58e4e8c3084e0bab9ae42d8c4fd2fd51f289967eb6498fb8132b3396704";
    let regulator = "0cac3356a97afba7f810d6b36589fb2bac7aca8ec6cae37e6273664dc0ae7202";
    assert_eq!(rt;
        (
            text.as_str(),
            approval_digest(&given[0]),
            approval_digest(&given[1])
        ),
        (wanted, digest(operator)?, digest(regulator)?)
    );
    Ok(())
}
