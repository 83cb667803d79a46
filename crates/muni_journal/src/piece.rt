//! What is written for a put.

ghost use Rattle.muni_journal.specs.Piece.{IsPieceOf};

use arrayvec::ArrayVec;
use muni_dec::text::push;
use muni_journal_record::{Put, body_of};

/// The record of a put and a closed gate: four bytes of length, the body, and 0.
#[tactic(auto, unfolding(crate::specs::Journal::piece_of, muni_journal_record::specs::Words::four))]
pub(crate) fn piece_of(put: &Put) -> ArrayVec<u8, 1029>
    ensures { IsPieceOf put.now result.items }
{
    let body = body_of(put);
    let mut piece = ArrayVec::new();
    push(&mut piece, &(body.len() as u32).to_be_bytes());
    push(&mut piece, &body);
    piece.push(0);
    piece
}
