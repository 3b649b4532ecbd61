//! What `ledgerctl` proves `auditctl` accepts.

use super::*;
use audit_cli::audit_top;

// More room than all replies take, and how many lines the auditor is given of them.
const PROOFS_ROOM: usize = 4_194_304;

const AUDITED: usize = 620;

/// Adds the lines that place 100 journals, of which three are anchors, and ask then for the head, for the proof of each journal
/// that is there, and for the extension from each head that was told before.
fn put_stage(alloc: Global, script: &mut Vec<u8>, stage: u64) -> Result<(), NoMemory> {
    for records in [33, 32, 32] {
        for _ in 0..records {
            script.extend_from_slice(EMPTY.as_bytes())?;
        }
        script.extend_from_slice(b"0 anchor\n")?;
    }
    script.extend_from_slice(b"0 head\n")?;
    for n in 0..=stage.saturating_mul(100) {
        put_text(script, &format!(in alloc; "0 prove {n}\n")?)?;
    }
    for earlier in 0..stage {
        let m = earlier.saturating_mul(100).saturating_add(1);
        put_text(script, &format!(in alloc; "0 extend ledger {m}\n")?)?;
    }
    for earlier in 1..stage {
        let m = earlier.saturating_mul(3);
        put_text(script, &format!(in alloc; "0 extend notary {m}\n")?)?;
    }
    Ok(())
}

fn put_text(out: &mut Vec<u8>, text: &str) -> Result<(), NoMemory> {
    Ok(out.extend_from_slice(text.as_bytes())?)
}

/// A ledger that grows to 301 journals with nine anchors, proved at three sizes.
fn stages(alloc: Global) -> Result<Vec<u8>, NoMemory> {
    let mut script = b"0 head\n".to_vec(alloc)?;
    for stage in 1..4 {
        put_stage(alloc, &mut script, stage)?;
    }
    Ok(script)
}

/// Adds the auditor's lines on a reply: a head is trusted, a proof checked, an extension taken. None for another reply than
/// these and a receipt.
fn put_audit(alloc: Global, audit: &mut Vec<u8>, reply: &str) -> Result<Option<()>, NoMemory> {
    let mut parts = reply.splitn(3, ' ');
    parts.next();
    let (Some(verb), Some(told)) = (parts.next(), parts.next()) else {
        return Ok(None);
    };
    match verb {
        "ok" => {}
        "proof" => put_text(audit, &format!(in alloc; "check {told}\n")?)?,
        "extension" => put_text(audit, &format!(in alloc; "extend {told}\n")?)?,
        "head" => return put_heads(alloc, audit, told),
        _ => return Ok(None),
    }
    Ok(Some(()))
}

/// Adds the lines that trust the two heads of a reply to `head`.
fn put_heads(alloc: Global, audit: &mut Vec<u8>, told: &str) -> Result<Option<()>, NoMemory> {
    let mut words = told.splitn(6, ' ');
    let (Some(ledger), Some(size), Some(root)) = (words.next(), words.next(), words.next()) else {
        return Ok(None);
    };
    words.next();
    words.next();
    let Some(notary) = words.next() else {
        return Ok(None);
    };
    let lines = format!(in alloc; "trust ledger {ledger} {size} {root}\ntrust notary {notary}\n")?;
    put_text(audit, &lines)?;
    Ok(Some(()))
}

/// What the auditor answers to what these replies prove.
fn audited<R: Threads + Sync>(
    rt: &R,
    alloc: Global,
    replies: &str,
) -> Result<Option<String>, NoMemory> {
    let mut audit = Vec::new(alloc);
    for reply in replies.lines() {
        let Some(()) = put_audit(alloc, &mut audit, reply)? else {
            return Ok(None);
        };
    }
    let words = strings(alloc, &["script"])?;
    let mut source = MemSource::new(Bytes::copy_of(alloc, audit.as_slice())?, Vec::new(alloc));
    let mut sink = MemSink::new(alloc, AMPLE, Vec::new(alloc))?;
    audit_top(rt, alloc, &words, &mut source, &mut sink, &TagScheme);
    let written = sink.written().to_vec(alloc)?;
    Ok(String::from_utf8(written).ok())
}

#[test]
fn what_is_proved_is_accepted(rt: HostRuntime) -> Result<(), Fail> {
    let alloc = rt.alloc();
    let script = stages(alloc)?;
    let faults = Faults {
        room: PROOFS_ROOM,
        ..NO_FAULTS
    };
    let (status, replies) = run(&rt, alloc, &DEMO, script.as_slice(), faults)?;
    assert_eq!(rt; status, 0);
    let replies = String::from_utf8(replies).map_err(|_| "no text")?;
    let answers = audited(&rt, alloc, &replies)?.ok_or("another reply")?;
    assert_eq!(rt; answers.lines().count(), AUDITED);
    assert!(rt; answers.lines().all(|answer| answer.ends_with(" yes")));
    Ok(())
}
