//! The pieces of a body, one after the other.

ghost use Rattle.std.specs.Prelude.{◌≡◌, ◌+◌, ◌≤◌, ◌<◌, ℕ, List, [], All, Option, Some, length, map, max, OnErr, OnOk};
ghost use Rattle.std.specs.Io.KnownBytes.{Appends};
ghost use Rattle.dap_types.specs.Limits.{most_piece};
ghost use Rattle.xdr_encode.specs.Faults.{HasCauses};
ghost use Rattle.xdr_encode.specs.Streamed.{Stops};
ghost use Rattle.join_source.specs.Begun.{HaveBegun};
ghost use Rattle.join_source.specs.Pieces.{AreTold, IsInside, PieceAsks, PieceStops, piece_cost, piece_xdr, pieces_cost, pieces_xdr};

use crate::piece::Piece;
use dap_outside::{Buffer, Shelf, Sink, put_all};
use slab_fill::Gate;
use std::thread::Threads;
use xdr_encode::{Fault, send_elements};

/// Puts a piece. The rooms have 65,536 bytes each. Takes no memory.
#[tactic(auto, unfolding(crate::specs::Pieces::piece_xdr, crate::specs::Pieces::piece_cost, crate::specs::Pieces::IsInside, crate::specs::Pieces::PieceAsks, crate::specs::Pieces::PieceStops))]
fn send_piece<R: Threads + Sync, S: Shelf, O: Sink, G: Gate>(
    rt: &R,
    shelf: &mut S,
    files: &mut [S::File],
    out: &mut O,
    buffer: &mut Buffer,
    piece: &Piece,
    raw: &mut [u8],
    sent: &mut [u8],
    workers: u32,
    gate: &G,
) -> Result<(), Fault>
    requires inside { IsInside (map (S.size_of shelf.old) files.old) piece.now }
    requires raw_room { length raw.old ≡ most_piece }
    requires sent_room { length sent.old ≡ most_piece }
    requires some { 1 ≤ workers }
    requires many { workers ≤ 64 }
    ensures ok { OnOk result ((contents : List (List ℕ)) → AreTold (map (S.content shelf.old) files.old) contents → Appends (O.written out.old) (O.written out.new) (piece_xdr piece.now contents)) }
    ensures err { OnErr result ((contents : List (List ℕ)) → AreTold (map (S.content shelf.old) files.old) contents → PieceStops piece.now contents (O.written out.old) (O.written out.new) (S.asked shelf.old) (S.asked shelf.new)) }
    ensures same_files { map (S.content shelf.new) files.new ≡ map (S.content shelf.old) files.old }
    ensures same_sizes { map (S.size_of shelf.new) files.new ≡ map (S.size_of shelf.old) files.old }
    ensures files { S.files shelf.new ≡ S.files shelf.old }
    ensures read { OnOk result (PieceAsks piece.now (S.asked shelf.old) (S.asked shelf.new)) }
    ensures asked { S.asked shelf.new ≤ S.asked shelf.old + piece_cost piece.now }
    ensures greatest { S.greatest shelf.new ≤ max (S.greatest shelf.old) most_piece }
    ensures cause { HasCauses (S.faults shelf.old) (S.faults shelf.new) (O.put_faults out.old) (O.put_faults out.new) result }
    ensures beside { O.beside_writing out.new ≡ O.beside_writing out.old }
{
    match piece {
        Piece::Text(text) => match put_all(out, text.bytes()) {
            Ok(()) => Ok(()),
            Err(_) => Err(Fault::Sink),
        },
        Piece::Elements { member, plan } => {
            let file = &mut files[*member as usize];
            send_elements(rt, shelf, file, out, buffer, plan, raw, sent, workers, gate)
        }
    }
}

/// Puts pieces, one after the other. The rooms have 65,536 bytes each. Takes no memory.
pub fn send_pieces<R: Threads + Sync, S: Shelf, O: Sink, G: Gate>(
    rt: &R,
    shelf: &mut S,
    files: &mut [S::File],
    out: &mut O,
    buffer: &mut Buffer,
    pieces: &[Piece],
    raw: &mut [u8],
    sent: &mut [u8],
    workers: u32,
    gate: &G,
) -> Result<(), Fault>
    requires inside { All (IsInside (map (S.size_of shelf.old) files.old)) pieces.now }
    requires raw_room { length raw.old ≡ most_piece }
    requires sent_room { length sent.old ≡ most_piece }
    requires some { 1 ≤ workers }
    requires many { workers ≤ 64 }
    ensures ok { OnOk result ((contents : List (List ℕ)) → AreTold (map (S.content shelf.old) files.old) contents → Appends (O.written out.old) (O.written out.new) (pieces_xdr pieces.now contents)) }
    ensures err { OnErr result ((contents : List (List ℕ)) (at : ℕ) → AreTold (map (S.content shelf.old) files.old) contents → Stops (pieces_xdr pieces.now contents) (λ put asked. HaveBegun pieces.now contents at (at + put) asked) (O.written out.old) (O.written out.new) (S.asked shelf.old) (S.asked shelf.new)) }
    ensures same_files { map (S.content shelf.new) files.new ≡ map (S.content shelf.old) files.old }
    ensures same_sizes { map (S.size_of shelf.new) files.new ≡ map (S.size_of shelf.old) files.old }
    ensures files { S.files shelf.new ≡ S.files shelf.old }
    ensures asked { S.asked shelf.new ≤ S.asked shelf.old + pieces_cost pieces.now }
    ensures greatest { S.greatest shelf.new ≤ max (S.greatest shelf.old) most_piece }
    ensures cause { HasCauses (S.faults shelf.old) (S.faults shelf.new) (O.put_faults out.old) (O.put_faults out.new) result }
    ensures beside { O.beside_writing out.new ≡ O.beside_writing out.old }
{
    for piece in pieces {
        send_piece(
            rt, shelf, files, out, buffer, piece, raw, sent, workers, gate,
        )?;
    }
    Ok(())
}
