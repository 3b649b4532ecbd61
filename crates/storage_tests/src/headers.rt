//! Headers of each kind are spelled and read by their worked bytes.

use hex::FromHex;
use journal_record::{Header, Kind, Member, content_digest, who_digest};
use ledger_bytes::{Bad, Digest};
use std::test::Fail;

// A header with its digests as hexadecimal text, and its bytes.
#[derive(Clone, Copy)]
struct Row {
    version: u8,
    kind: Kind,
    jsn: u64,
    member: u32,
    clue: &'static str,
    clue_ord: u32,
    clue_prev: u64,
    a: u64,
    b: u64,
    link: &'static str,
    content_len: u32,
    content_digest: &'static str,
    who_digest: &'static str,
    bytes: &'static str,
}

const NO_CLUE: &str = "0000000000000000000000000000000000000000000000000000000000000000";

const ROWS: [Row; 11] = [
    Row {
        version: 1,
        kind: Kind::Genesis,
        jsn: 0,
        member: 0,
        clue: NO_CLUE,
        clue_ord: 0,
        clue_prev: 0,
        a: 0,
        b: 0,
        link: "914cc74d53cd8261488272a6f032311caec3902f46b0b58cf98417cddf94e382",
        content_len: 64,
        content_digest: "2c66600c9d6ab5196b84e5fb389401569af0f4ebcfdac5ce763f4ec34c4c435f",
        who_digest: "01ba4719c80b6fe911b091a7c05124b64eeece964e09c058ef8f9805daca546b",
        bytes: "0100000000000000000000000000000000000000000000000000000000000000000000000000000000000000000000000000000000000000000000000000000000000000000000000000914cc74d53cd8261488272a6f032311caec3902f46b0b58cf98417cddf94e382000000402c66600c9d6ab5196b84e5fb389401569af0f4ebcfdac5ce763f4ec34c4c435f01ba4719c80b6fe911b091a7c05124b64eeece964e09c058ef8f9805daca546b",
    },
    Row {
        version: 1,
        kind: Kind::Member,
        jsn: 1,
        member: 0,
        clue: NO_CLUE,
        clue_ord: 0,
        clue_prev: 0,
        a: 2,
        b: 0,
        link: "0303030303030303030303030303030303030303030303030303030303030303",
        content_len: 0,
        content_digest: "dbc1b4c900ffe48d575b5da5c638040125f65db0fe3e24494b76ea986457d986",
        who_digest: "9a1d89c119e68e87a795259b07ebe8642015c93186b59ef124834ac79be9693d",
        bytes: "0102000000000000000100000000000000000000000000000000000000000000000000000000000000000000000000000000000000000000000000000000000000020000000000000000030303030303030303030303030303030303030303030303030303030303030300000000dbc1b4c900ffe48d575b5da5c638040125f65db0fe3e24494b76ea986457d9869a1d89c119e68e87a795259b07ebe8642015c93186b59ef124834ac79be9693d",
    },
    Row {
        version: 1,
        kind: Kind::Content,
        jsn: 2,
        member: 2,
        clue: "3536d837609504a8406dcb211cb403cb9290736cc3a94b2fa0601b2cd543e6da",
        clue_ord: 1,
        clue_prev: 0,
        a: 0,
        b: 0,
        link: "c91e8e640e57e2e878b7b2840e07636c07539496336fbcc57c40f1cc60c359fc",
        content_len: 3,
        content_digest: "909ac45e439911193205994d09399c29fede977ab212605f29ead5250a812e73",
        who_digest: "c31de51580a8656b63f753ec142454bafa09b766de1b25b0ac75c128005d40cb",
        bytes: "01010000000000000002000000023536d837609504a8406dcb211cb403cb9290736cc3a94b2fa0601b2cd543e6da00000001000000000000000000000000000000000000000000000000c91e8e640e57e2e878b7b2840e07636c07539496336fbcc57c40f1cc60c359fc00000003909ac45e439911193205994d09399c29fede977ab212605f29ead5250a812e73c31de51580a8656b63f753ec142454bafa09b766de1b25b0ac75c128005d40cb",
    },
    Row {
        version: 1,
        kind: Kind::Time,
        jsn: 3,
        member: 0,
        clue: NO_CLUE,
        clue_ord: 0,
        clue_prev: 0,
        a: 0,
        b: 1000,
        link: "8b3b30a051bca9ec8bacbfaf3a351389842d99f1769a4959994077e9ec8d8757",
        content_len: 0,
        content_digest: "dbc1b4c900ffe48d575b5da5c638040125f65db0fe3e24494b76ea986457d986",
        who_digest: "01ba4719c80b6fe911b091a7c05124b64eeece964e09c058ef8f9805daca546b",
        bytes: "01030000000000000003000000000000000000000000000000000000000000000000000000000000000000000000000000000000000000000000000000000000000000000000000003e88b3b30a051bca9ec8bacbfaf3a351389842d99f1769a4959994077e9ec8d875700000000dbc1b4c900ffe48d575b5da5c638040125f65db0fe3e24494b76ea986457d98601ba4719c80b6fe911b091a7c05124b64eeece964e09c058ef8f9805daca546b",
    },
    Row {
        version: 1,
        kind: Kind::Content,
        jsn: 4,
        member: 0,
        clue: NO_CLUE,
        clue_ord: 0,
        clue_prev: 0,
        a: 0,
        b: 0,
        link: "45ab4df7151b96fe3fdaa2ffe2851781324f1e7e8cd93e909a6f084b485ebf77",
        content_len: 0,
        content_digest: "dbc1b4c900ffe48d575b5da5c638040125f65db0fe3e24494b76ea986457d986",
        who_digest: "3c1ab984c2f51fa50128f81a4ffcb9d6ff5c1c1650aaecbd3ba5d43c2a610804",
        bytes: "010100000000000000040000000000000000000000000000000000000000000000000000000000000000000000000000000000000000000000000000000000000000000000000000000045ab4df7151b96fe3fdaa2ffe2851781324f1e7e8cd93e909a6f084b485ebf7700000000dbc1b4c900ffe48d575b5da5c638040125f65db0fe3e24494b76ea986457d9863c1ab984c2f51fa50128f81a4ffcb9d6ff5c1c1650aaecbd3ba5d43c2a610804",
    },
    Row {
        version: 1,
        kind: Kind::Content,
        jsn: 5,
        member: 2,
        clue: "3536d837609504a8406dcb211cb403cb9290736cc3a94b2fa0601b2cd543e6da",
        clue_ord: 2,
        clue_prev: 2,
        a: 0,
        b: 0,
        link: "58dc4c538a5ee7c678b8690d5f823cea4a1a3808c5d33326c7831c937f097a6b",
        content_len: 0,
        content_digest: "dbc1b4c900ffe48d575b5da5c638040125f65db0fe3e24494b76ea986457d986",
        who_digest: "3b2b7a35876c8d21fd0fced91b5dced5492fef1abb547b92ea2212cdcb81d70c",
        bytes: "01010000000000000005000000023536d837609504a8406dcb211cb403cb9290736cc3a94b2fa0601b2cd543e6da0000000200000000000000020000000000000000000000000000000058dc4c538a5ee7c678b8690d5f823cea4a1a3808c5d33326c7831c937f097a6b00000000dbc1b4c900ffe48d575b5da5c638040125f65db0fe3e24494b76ea986457d9863b2b7a35876c8d21fd0fced91b5dced5492fef1abb547b92ea2212cdcb81d70c",
    },
    Row {
        version: 1,
        kind: Kind::Occult,
        jsn: 6,
        member: 0,
        clue: NO_CLUE,
        clue_ord: 0,
        clue_prev: 0,
        a: 2,
        b: 0,
        link: "d5bafe4ff5eb75d98a360fd0a779d19ac6abbd6e75a890c22a7d59c35f349099",
        content_len: 0,
        content_digest: "dbc1b4c900ffe48d575b5da5c638040125f65db0fe3e24494b76ea986457d986",
        who_digest: "1b43157972b902cd8d9dd38e26d9f94758b29fbc36f8f0129817d393167452b4",
        bytes: "0104000000000000000600000000000000000000000000000000000000000000000000000000000000000000000000000000000000000000000000000000000000020000000000000000d5bafe4ff5eb75d98a360fd0a779d19ac6abbd6e75a890c22a7d59c35f34909900000000dbc1b4c900ffe48d575b5da5c638040125f65db0fe3e24494b76ea986457d9861b43157972b902cd8d9dd38e26d9f94758b29fbc36f8f0129817d393167452b4",
    },
    Row {
        version: 1,
        kind: Kind::Purge,
        jsn: 7,
        member: 0,
        clue: NO_CLUE,
        clue_ord: 0,
        clue_prev: 0,
        a: 3,
        b: 0,
        link: "512f5fda8ae48370fecc813c9c31ca8acfe325d858792528d9ecf6d8f2572bce",
        content_len: 0,
        content_digest: "dbc1b4c900ffe48d575b5da5c638040125f65db0fe3e24494b76ea986457d986",
        who_digest: "64cb65b10b06ebdbf207e9a330446f51641e1bd78d6d11c5429bc1c265827563",
        bytes: "0105000000000000000700000000000000000000000000000000000000000000000000000000000000000000000000000000000000000000000000000000000000030000000000000000512f5fda8ae48370fecc813c9c31ca8acfe325d858792528d9ecf6d8f2572bce00000000dbc1b4c900ffe48d575b5da5c638040125f65db0fe3e24494b76ea986457d98664cb65b10b06ebdbf207e9a330446f51641e1bd78d6d11c5429bc1c265827563",
    },
    Row {
        version: 2,
        kind: Kind::Content,
        jsn: 8,
        member: 2,
        clue: "3536d837609504a8406dcb211cb403cb9290736cc3a94b2fa0601b2cd543e6da",
        clue_ord: 3,
        clue_prev: 5,
        a: 7,
        b: 0,
        link: "6fdbbb396be91c6e01d093f40c5902a06d02d110cb5982a5bed23ea9e46179f8",
        content_len: 1,
        content_digest: "f5fcb5a1e3534de6007b6c49b3a5f4c545edb7c0e0608a30b20e1695db3e43b2",
        who_digest: "34fb7c63e13605198170628428da227f4dbf6a8cc0dfa417d8afa1d5ea5f3dd0",
        bytes: "02010000000000000008000000023536d837609504a8406dcb211cb403cb9290736cc3a94b2fa0601b2cd543e6da000000030000000000000005000000000000000700000000000000006fdbbb396be91c6e01d093f40c5902a06d02d110cb5982a5bed23ea9e46179f800000001f5fcb5a1e3534de6007b6c49b3a5f4c545edb7c0e0608a30b20e1695db3e43b234fb7c63e13605198170628428da227f4dbf6a8cc0dfa417d8afa1d5ea5f3dd0",
    },
    Row {
        version: 2,
        kind: Kind::Content,
        jsn: 10,
        member: 1,
        clue: NO_CLUE,
        clue_ord: 0,
        clue_prev: 0,
        a: 0,
        b: 0,
        link: "08b0b41cd5c08859a417afc7a15b56ab5262693a95b24ceeca96f7d4ccae5488",
        content_len: 65537,
        content_digest: "c010091eb9403a6a35887fa926cf1f9af60862593d323626407af4096b649914",
        who_digest: "77767ab1fd4b43489530cc43ff92c3e766470978c910b33003f685ad199c702a",
        bytes: "0201000000000000000a0000000100000000000000000000000000000000000000000000000000000000000000000000000000000000000000000000000000000000000000000000000008b0b41cd5c08859a417afc7a15b56ab5262693a95b24ceeca96f7d4ccae548800010001c010091eb9403a6a35887fa926cf1f9af60862593d323626407af4096b64991477767ab1fd4b43489530cc43ff92c3e766470978c910b33003f685ad199c702a",
    },
    Row {
        version: 2,
        kind: Kind::ClueOccult,
        jsn: 9,
        member: 0,
        clue: NO_CLUE,
        clue_ord: 0,
        clue_prev: 0,
        a: 3,
        b: 0,
        link: "3536d837609504a8406dcb211cb403cb9290736cc3a94b2fa0601b2cd543e6da",
        content_len: 0,
        content_digest: "dbc1b4c900ffe48d575b5da5c638040125f65db0fe3e24494b76ea986457d986",
        who_digest: "46f9f0832ad3c99dec96f8c9445f884fa771ab59c053940416440a50d96c95d0",
        bytes: "02060000000000000009000000000000000000000000000000000000000000000000000000000000000000000000000000000000000000000000000000000000000300000000000000003536d837609504a8406dcb211cb403cb9290736cc3a94b2fa0601b2cd543e6da00000000dbc1b4c900ffe48d575b5da5c638040125f65db0fe3e24494b76ea986457d98646f9f0832ad3c99dec96f8c9445f884fa771ab59c053940416440a50d96c95d0",
    },
];

fn digest(text: &str) -> Result<Digest, hex::FromHexError> {
    Ok(Digest(<[u8; 32]>::from_hex(text)?))
}

fn header_of(row: &Row) -> Result<Header, hex::FromHexError> {
    Ok(Header {
        version: row.version,
        kind: row.kind,
        jsn: row.jsn,
        member: row.member,
        clue: digest(row.clue)?,
        clue_ord: row.clue_ord,
        clue_prev: row.clue_prev,
        a: row.a,
        b: row.b,
        link: digest(row.link)?,
        content_len: row.content_len,
        content_digest: digest(row.content_digest)?,
        who_digest: digest(row.who_digest)?,
    })
}

#[test]
fn encodes_and_decodes_each_kind(rt: HostRuntime) -> Result<(), Fail> {
    for row in ROWS {
        let header = header_of(&row)?;
        let bytes = header.encode();
        let text = hex::encode(rt.alloc(), bytes)?;
        assert_eq!(rt;
            (text.as_str(), Header::decode(&bytes)),
            (row.bytes, Ok(header)),
            "at journal {}",
            row.jsn
        );
    }
    Ok(())
}

// A journal of `ROWS`, a byte of it and what stands there instead, and why that is refused.
const CHANGED: [(usize, usize, u8, Bad); 11] = [
    (2, 0, 0, Bad::NewerFormat { found: 0 }),
    (2, 0, 3, Bad::NewerFormat { found: 3 }),
    (2, 0, 2, Bad::BadFixedField { at: 0 }),
    (3, 0, 2, Bad::BadFixedField { at: 0 }),
    (8, 65, 0, Bad::BadFixedField { at: 0 }),
    (2, 65, 1, Bad::BadFixedField { at: 58 }),
    (9, 0, 1, Bad::BadFixedField { at: 106 }),
    (9, 109, 0, Bad::BadFixedField { at: 0 }),
    (10, 0, 1, Bad::BadKind { found: 6 }),
    (10, 65, 0, Bad::BadFixedField { at: 58 }),
    (10, 61, 1, Bad::BadFixedField { at: 58 }),
];

#[test]
fn refuses_what_another_version_carries(rt: HostRuntime) -> Result<(), Fail> {
    for (journal, at, byte, refusal) in CHANGED {
        let row = ROWS.get(journal).ok_or("no row")?;
        let mut bytes = <[u8; 174]>::from_hex(row.bytes)?;
        if let Some(place) = bytes.get_mut(at) {
            *place = byte;
        }
        assert_eq!(rt;
            Header::decode(&bytes),
            Err(refusal),
            "at byte {at} of journal {journal}"
        );
    }
    Ok(())
}
