//! Contents of more than 65,536 bytes, up to 1,048,576. What is written is what an independent implementation writes.

use super::*;

/// A line that appends a content, which the script doesn't hold.
struct Large {
    front: &'static str,
    len: usize,
    /// Byte `n` of the content is `n` with these bits alone.
    bits: u8,
    proof: &'static str,
}

const LARGE: [Large; 4] = [
    Large {
        front: "0 append 0 - ",
        len: 1_048_576,
        bits: 255,
        proof: "0101010101010101010101010101010101010101010101010101010101010101\
            eb15d1e23ed7854cf409642345bea3e7e0d7e1257c84432f4714e8b5678326bb",
    },
    Large {
        front: "0 append 1 - ",
        len: 65_537,
        bits: 0,
        proof: "0202020202020202020202020202020202020202020202020202020202020202\
            5c88328a2786706fb26437f0fcb8de1241c4b57dc283f0a908ebee9e69a5069d",
    },
    Large {
        front: "0 append 1 - ",
        len: 65_536,
        bits: 0,
        proof: "0202020202020202020202020202020202020202020202020202020202020202\
            e842ab76a092f37c519e1a3b326caf9f8e7ea1e461e6998255cb172f758d5bab",
    },
    Large {
        front: "0 append 0 - ",
        len: 1_048_577,
        bits: 0,
        proof: "-",
    },
];

// What is written: three receipts and a refusal, and the head.
const WRITTEN: &str = "0.1 ok 1 \
    7a5ad2bb2585d1f786b07f639663d3d22dd927f16901e410123c372524b051b5 1 4 \
    00f9d6ff67c8761ce36c586bde775f1259552bb831aafa6b9a53db7198b33514\n\
    0.2 ok 2 \
    096a6e67705aae065526e6d6c717a294651dbc1c5e501ecacf851a8352cd2f6a 1 4 \
    00f9d6ff67c8761ce36c586bde775f1259552bb831aafa6b9a53db7198b33514\n\
    0.3 ok 3 \
    ac44ff34e22d4e80a57553e8e87a4e5b409123b7e6e9abe44ed7112358b75b13 1 4 \
    00f9d6ff67c8761ce36c586bde775f1259552bb831aafa6b9a53db7198b33514\n\
    0.4 no 11 5\n\
    0.5 head \
    64915354a6547b1f887e596e872fd13b2abdc860729da9fe31180a81726cf4a2 4 \
    00f9d6ff67c8761ce36c586bde775f1259552bb831aafa6b9a53db7198b33514 2 0 0 \
    e3b0c44298fc1c149afbf4c8996fb92427ae41e4649b934ca495991b7852b855\n";

const DIGITS: &[u8; 16] = b"0123456789abcdef";

fn put_line(script: &mut Vec<u8>, line: &Large) -> Result<(), NoMemory> {
    script.extend_from_slice(line.front.as_bytes())?;
    let mut count = 0u8;
    for _byte in 0..line.len {
        let byte = count & line.bits;
        script.push(DIGITS[usize::from(byte >> 4)])?;
        script.push(DIGITS[usize::from(byte & 15)])?;
        count = count.wrapping_add(1);
    }
    script.push(b' ')?;
    script.extend_from_slice(line.proof.as_bytes())?;
    script.push(b'\n')?;
    Ok(())
}

#[test]
fn takes_contents_up_to_the_limit(rt: HostRuntime) -> Result<(), Fail> {
    let alloc = rt.alloc();
    let mut script = Vec::new(alloc);
    for line in &LARGE {
        put_line(&mut script, line)?;
    }
    script.extend_from_slice(b"0 head\n")?;
    let mut a = MemDisk::new(alloc, DISK_ROOM, Vec::new(alloc))?;
    let mut b = MemDisk::new(alloc, DISK_ROOM, Vec::new(alloc))?;
    let (status, written) = run_on(
        &rt,
        alloc,
        &DEMO,
        script.as_slice(),
        NO_FAULTS,
        &mut a,
        &mut b,
    )?;
    assert_eq!(rt; status, 0);
    assert_eq!(rt; written.as_slice(), WRITTEN.as_bytes());
    Ok(())
}
