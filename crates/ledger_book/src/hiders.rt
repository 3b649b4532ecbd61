//! Which journals have their contents hidden, and by which others: a list beside the headers of the kept journals, of one number
//! for each, that of the journal that hides it, or 0 where none does. So each kept journal costs 8 bytes for it, and what is
//! hidden takes no memory.

ghost use Rattle.std.specs.Prelude.{◌≡◌, get_or, vec_len};
ghost use Rattle.ledger_book.specs.Hiders.{told_hider, hidden_at, hidden_all, targets_as};

use journal_record::{Header, Kind};

/// The journal that hides the one at this place, where one does.
pub(crate) fn hider_at(hiders: &[u64], place: usize) -> Option<u64>
    ensures { result ≡ told_hider (get_or hiders.now place 0) }
{
    match hiders.get(place) {
        Some(jsn) if *jsn != 0 => Some(*jsn),
        _ => None,
    }
}

/// A journal with this header hides what it names: an occult its target, an occult by clue the kept journals of its clue,
/// which are these. The first of the list is that of journal `floor`.
pub(crate) fn hide_targets(hiders: &mut Vec<u64>, floor: u64, header: &Header, clued: &[u64])
    ensures items { hiders.new.items ≡ hidden_all floor header.now.jsn
        (targets_as header.now.kind floor header.now clued.now) hiders.old.items }
    ensures len { vec_len hiders.new ≡ vec_len hiders.old }
{
    match header.kind {
        Kind::Occult => {
            if floor <= header.a {
                hide_at(hiders, header.a.saturating_sub(floor), header.jsn);
            }
        }
        Kind::ClueOccult => hide_all(hiders, floor, header.jsn, clued),
        Kind::Genesis | Kind::Content | Kind::Member | Kind::Time | Kind::Purge => {}
    }
}

// Journal `jsn` hides each of these.
fn hide_all(hiders: &mut Vec<u64>, floor: u64, jsn: u64, targets: &[u64])
    ensures items { hiders.new.items ≡ hidden_all floor jsn targets.now hiders.old.items }
    ensures len { vec_len hiders.new ≡ vec_len hiders.old }
{
    for target in targets {
        hide_at(hiders, target.saturating_sub(floor), jsn);
    }
}

// Journal `jsn` hides the one at this place, where that is there and none hid it.
fn hide_at(hiders: &mut Vec<u64>, place: u64, jsn: u64)
    ensures items { hiders.new.items ≡ hidden_at place jsn hiders.old.items }
    ensures len { vec_len hiders.new ≡ vec_len hiders.old }
{
    let place = place as usize;
    if place < hiders.len() && hiders[place] == 0 {
        hiders[place] = jsn;
    }
}
