ghost use Rattle.std.specs.Prelude.{◌≡◌, ◌+◌, ◌≤◌, ◌++◌, ℕ, List, All, length, map, max, vec_len};
ghost use Rattle.dap_types.specs.Limits.{most_piece};
ghost use Rattle.xdr_encode.specs.Streamed.{HasStreamCauses, StopsAtFault, Streams};
ghost use Rattle.join_source.specs.Begun.{HaveBegun};
ghost use Rattle.join_source.specs.Bodies.{FitsFiles, MayAsk, cost_in, dds_in, head_in, pieces_in, text_in};
ghost use Rattle.join_source.specs.Pieces.{AreTold, IsInside, pieces_cost, pieces_xdr};

use crate::JoinBody;
use crate::piece::Piece;
use crate::send::send_pieces;
use dap_outside::{Buffer, Shelf, Sink, put_all};
use slab_fill::Gate;
use std::thread::Threads;
use xdr_encode::{Streamed, streamed_of};

/// Puts a body: its head and its pieces. The rooms have 65,536 bytes each. Takes no memory.
fn send_body<R: Threads + Sync, S: Shelf, O: Sink, G: Gate>(
    rt: &R,
    shelf: &mut S,
    files: &mut [S::File],
    out: &mut O,
    buffer: &mut Buffer,
    head: &[u8],
    pieces: &[Piece],
    raw: &mut [u8],
    sent: &mut [u8],
    workers: u32,
    gate: &G,
) -> Streamed
    requires inside { All (IsInside (map (S.size_of shelf.old) files.old)) pieces.now }
    requires raw_room { length raw.old ≡ most_piece }
    requires sent_room { length sent.old ≡ most_piece }
    requires some { 1 ≤ workers }
    requires many { workers ≤ 64 }
    ensures body { (contents : List (List ℕ)) → AreTold (map (S.content shelf.old) files.old) contents → Streams result (O.written out.old) (O.written out.new) (head.now ++ pieces_xdr pieces.now contents) }
    ensures stops { (contents : List (List ℕ)) → AreTold (map (S.content shelf.old) files.old) contents → StopsAtFault result (head.now ++ pieces_xdr pieces.now contents) (λ put asked. HaveBegun pieces.now contents (length head.now) put asked) (O.written out.old) (O.written out.new) (S.asked shelf.old) (S.asked shelf.new) }
    ensures same_files { map (S.content shelf.new) files.new ≡ map (S.content shelf.old) files.old }
    ensures same_sizes { map (S.size_of shelf.new) files.new ≡ map (S.size_of shelf.old) files.old }
    ensures files { S.files shelf.new ≡ S.files shelf.old }
    ensures asked { S.asked shelf.new ≤ S.asked shelf.old + pieces_cost pieces.now }
    ensures greatest { S.greatest shelf.new ≤ max (S.greatest shelf.old) most_piece }
    ensures cause { HasStreamCauses result (S.faults shelf.old) (S.faults shelf.new) (O.put_faults out.old) (O.put_faults out.new) }
    ensures beside { O.beside_writing out.new ≡ O.beside_writing out.old }
{
    let Ok(()) = put_all(out, head) else {
        return Streamed::WriteFault;
    };
    streamed_of(send_pieces(
        rt, shelf, files, out, buffer, pieces, raw, sent, workers, gate,
    ))
}

/// The same in rooms that keep their lengths.
fn send_in_rooms<R: Threads + Sync, S: Shelf, O: Sink, G: Gate>(
    rt: &R,
    shelf: &mut S,
    files: &mut [S::File],
    out: &mut O,
    buffer: &mut Buffer,
    head: &[u8],
    pieces: &[Piece],
    raw: &mut Vec<u8>,
    sent: &mut Vec<u8>,
    workers: u32,
    gate: &G,
) -> Streamed
    requires inside { All (IsInside (map (S.size_of shelf.old) files.old)) pieces.now }
    requires raw_room { vec_len raw.old ≡ most_piece }
    requires sent_room { vec_len sent.old ≡ most_piece }
    requires some { 1 ≤ workers }
    requires many { workers ≤ 64 }
    ensures raw_room { vec_len raw.new ≡ most_piece }
    ensures sent_room { vec_len sent.new ≡ most_piece }
    ensures body { (contents : List (List ℕ)) → AreTold (map (S.content shelf.old) files.old) contents → Streams result (O.written out.old) (O.written out.new) (head.now ++ pieces_xdr pieces.now contents) }
    ensures stops { (contents : List (List ℕ)) → AreTold (map (S.content shelf.old) files.old) contents → StopsAtFault result (head.now ++ pieces_xdr pieces.now contents) (λ put asked. HaveBegun pieces.now contents (length head.now) put asked) (O.written out.old) (O.written out.new) (S.asked shelf.old) (S.asked shelf.new) }
    ensures same_files { map (S.content shelf.new) files.new ≡ map (S.content shelf.old) files.old }
    ensures same_sizes { map (S.size_of shelf.new) files.new ≡ map (S.size_of shelf.old) files.old }
    ensures files { S.files shelf.new ≡ S.files shelf.old }
    ensures asked { S.asked shelf.new ≤ S.asked shelf.old + pieces_cost pieces.now }
    ensures greatest { S.greatest shelf.new ≤ max (S.greatest shelf.old) most_piece }
    ensures cause { HasStreamCauses result (S.faults shelf.old) (S.faults shelf.new) (O.put_faults out.old) (O.put_faults out.new) }
    ensures beside { O.beside_writing out.new ≡ O.beside_writing out.old }
{
    let raw = raw.as_mut_slice();
    let sent = sent.as_mut_slice();
    send_body(
        rt, shelf, files, out, buffer, head, pieces, raw, sent, workers, gate,
    )
}

impl JoinBody {
    /// The DDS of what is sent.
    #[tactic(auto, unfolding(crate::specs::Bodies::dds_in))]
    pub fn dds(&self) -> &[u8]
        ensures { result.now ≡ dds_in self.now }
    {
        let head = self.head.bytes();
        &head[..self.dds_len.min(head.len())]
    }

    /// Puts the body, each file read in batches of at most 65,536 bytes. The files are those of the headers, in
    /// order. Takes no memory.
    #[tactic(auto, unfolding(crate::specs::Bodies::text_in, crate::specs::Bodies::dds_in, crate::specs::Bodies::cost_in, crate::specs::Bodies::FitsFiles, crate::specs::Bodies::MayAsk))]
    pub fn stream<R: Threads + Sync, S: Shelf, O: Sink, G: Gate>(
        &mut self,
        rt: &R,
        shelf: &mut S,
        files: &mut [S::File],
        out: &mut O,
        workers: u32,
        gate: &G,
    ) -> Streamed
        requires fits { FitsFiles self.old (map (S.size_of shelf.old) files.old) }
        requires some { 1 ≤ workers }
        requires many { workers ≤ 64 }
        ensures body { (contents : List (List ℕ)) → AreTold (map (S.content shelf.old) files.old) contents → Streams result (O.written out.old) (O.written out.new) (text_in self.old contents) }
        ensures stops { (contents : List (List ℕ)) → AreTold (map (S.content shelf.old) files.old) contents → StopsAtFault result (text_in self.old contents) (MayAsk self.old contents) (O.written out.old) (O.written out.new) (S.asked shelf.old) (S.asked shelf.new) }
        ensures same_files { map (S.content shelf.new) files.new ≡ map (S.content shelf.old) files.old }
        ensures same_sizes { map (S.size_of shelf.new) files.new ≡ map (S.size_of shelf.old) files.old }
        ensures same { (head_in self.new ≡ head_in self.old) × (pieces_in self.new ≡ pieces_in self.old) }
        ensures fits_still { (sizes : List ℕ) → FitsFiles self.old sizes → FitsFiles self.new sizes }
        ensures same_dds { dds_in self.new ≡ dds_in self.old }
        ensures files { S.files shelf.new ≡ S.files shelf.old }
        ensures asked { S.asked shelf.new ≤ S.asked shelf.old + cost_in self.old }
        ensures greatest { S.greatest shelf.new ≤ max (S.greatest shelf.old) most_piece }
        ensures cause { HasStreamCauses result (S.faults shelf.old) (S.faults shelf.new) (O.put_faults out.old) (O.put_faults out.new) }
        ensures beside { O.beside_writing out.new ≡ O.beside_writing out.old }
    {
        let mut buffer = Buffer::new();
        let raw = &mut self.raw;
        let sent = &mut self.sent;
        let head = self.head.bytes();
        let pieces = self.pieces.items();
        send_in_rooms(
            rt,
            shelf,
            files,
            out,
            &mut buffer,
            head,
            pieces,
            raw,
            sent,
            workers,
            gate,
        )
    }
}
