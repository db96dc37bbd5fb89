// Listed pieces that are given one after the other.
ghost use Rattle.std.specs.Prelude.{◌≡◌, ◌<◌, ◌≤◌, ◌++◌, ◌+◌, [], IfOk, OnErr, vec_len, length, take, drop};
ghost use Rattle.pt_base.specs.Pieces.{given, left, joined, Stands, piece_at, filled_pieces, next_piece, without};

use std::alloc::{AllocError, Global};

// Pieces, the one that is next, and how much of it was given.
#[derive(Drop)]
pub struct Pieces {
    pieces: Vec<Vec<u8>>,
    at: usize,
    from: usize,
    ghost stands: { Stands pieces.items at from },
}

// The place of the next byte that comes, past pieces that are used up.
fn next_place(pieces: &[Vec<u8>], at: usize, from: usize) -> (usize, usize)
    requires { at ≤ length pieces.now }
    ensures within { result.0 ≤ length pieces.now }
    ensures given { given pieces.now result.0 result.1 ≡ given pieces.now at from }
    ensures left { left pieces.now result.0 result.1 ≡ left pieces.now at from }
    ensures inside { result.0 < length pieces.now → result.1 < length (piece_at pieces.now result.0) }
{
    let mut at = at;
    let mut from = from;
    while at < pieces.len() {
        if from < pieces[at].len() {
            return (at, from);
        }
        at += 1;
        from = 0;
    }
    (at, from)
}

// At most `max` bytes from this place on.
fn part_of(piece: &[u8], from: usize, max: usize) -> &[u8]
    requires { from ≤ length piece.now }
    ensures front { result.now ≡ take (length result.now) (drop from piece.now) }
    ensures value { result.now ≡ take max (drop from piece.now) }
    ensures length { length result.now ≤ max }
    ensures within { from + length result.now ≤ length piece.now }
    ensures some { 1 ≤ max → from < length piece.now → 1 ≤ length result.now }
{
    &piece[from..from + max.min(piece.len() - from)]
}

impl Pieces {
    pub(crate) fn new(pieces: Vec<Vec<u8>>) -> Pieces
        ensures left { left result.pieces.items result.at result.from ≡ filled_pieces pieces.items }
        ensures given { given result.pieces.items result.at result.from ≡ [] }
    {
        Pieces {
            pieces,
            at: 0,
            from: 0,
        }
    }

    // Up to `max` bytes of the next piece that has any; none past the last.
    pub(crate) fn next(&mut self, alloc: Global, max: usize) -> Result<Vec<u8>, AllocError>
        requires { 1 ≤ max }
        ensures given { IfOk result (λ v. given self.new.pieces.items self.new.at self.new.from ≡
            given self.old.pieces.items self.old.at self.old.from ++ v.items) }
        ensures length { IfOk result (λ v. vec_len v ≤ max) }
        ensures piece { IfOk result (λ v. v.items ≡ take max (next_piece (left self.old.pieces.items self.old.at self.old.from))) }
        ensures left { IfOk result (λ v. left self.new.pieces.items self.new.at self.new.from ≡
            without (length v.items) (left self.old.pieces.items self.old.at self.old.from)) }
        ensures whole { IfOk result (λ v. given self.new.pieces.items self.new.at self.new.from
            ++ joined (left self.new.pieces.items self.new.at self.new.from)
            ≡ given self.old.pieces.items self.old.at self.old.from
            ++ joined (left self.old.pieces.items self.old.at self.old.from)) }
        ensures end { IfOk result (λ v. v.items ≡ [] → left self.old.pieces.items self.old.at self.old.from ≡ []) }
        ensures same { OnErr result (self.new ≡ self.old) }
    {
        let (at, from) = next_place(&self.pieces, self.at, self.from);
        if at == self.pieces.len() {
            return Ok(Vec::new(alloc));
        }
        let part = part_of(self.pieces[at].as_slice(), from, max);
        let bytes = Vec::from_slice(alloc, part)?;
        self.at = at;
        self.from = from + part.len();
        Ok(bytes)
    }
}
