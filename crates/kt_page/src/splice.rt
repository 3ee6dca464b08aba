//! What changes of a list of lines.
//! Cited by json.rt.

ghost use Rattle.std.specs.Prelude.{◌≡◌, ◌≤◌, ◌↔◌, ◌-◌, drop, length, take, IfSome, IsTrue, None};
ghost use Rattle.kt_cells.specs.Texts.{text_of};
ghost use Rattle.kt_page.specs.auxiliary.Splice.{put};

/// A change of lines: at this place so many are taken out, and these are put there.
#[derive(Clone, Copy)]
pub(crate) struct Splice<'a> {
    /// The place of the first line that goes, counted from 0.
    pub at: usize,
    /// How many go.
    pub gone: usize,
    /// What comes in their place.
    pub come: &'a [Vec<u8>],
}

/// What makes the new lines of the old ones; `None` where they are equal. What both begin with stays, and of the rest
/// what both end with.
pub(crate) fn splice_of<'a>(old: &[Vec<u8>], new: &'a [Vec<u8>]) -> Option<Splice<'a>>
    ensures put { IfSome result (λ s. text_of (new.now) ≡ put s.at s.gone (text_of (s.come.now)) (text_of (old.now))) }
    ensures none { result ≡ None → text_of old.now ≡ text_of new.now }
{
    let front = front_len(old, new);
    if front == old.len() && front == new.len() {
        return None;
    }
    let (_, old) = old.split_at(front);
    let (_, new) = new.split_at(front);
    let back = back_len(old, new);
    let (come, _) = new.split_at(new.len() - back);
    Some(Splice {
        at: front,
        gone: old.len() - back,
        come,
    })
}

/// How many lines both begin with.
fn front_len(old: &[Vec<u8>], new: &[Vec<u8>]) -> usize
    ensures old { result ≤ length old.now }
    ensures new { result ≤ length new.now }
    ensures same { text_of (take result old.now) ≡ text_of (take result new.now) }
{
    let most = old.len().min(new.len());
    for place in 0..most {
        if !is_same(&old[place], &new[place]) {
            return place;
        }
    }
    most
}

/// How many lines both end with.
fn back_len(old: &[Vec<u8>], new: &[Vec<u8>]) -> usize
    ensures old { result ≤ length old.now }
    ensures new { result ≤ length new.now }
    ensures same { text_of (drop (length old.now - result) old.now) ≡ text_of (drop (length new.now - result) new.now) }
{
    let most = old.len().min(new.len());
    for place in 0..most {
        if !is_same(&old[old.len() - 1 - place], &new[new.len() - 1 - place]) {
            return place;
        }
    }
    most
}

fn is_same(old: &[u8], new: &[u8]) -> bool
    ensures { IsTrue result ↔ (old.now ≡ new.now) }
{
    old == new
}
