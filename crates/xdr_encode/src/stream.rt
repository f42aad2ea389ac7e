ghost use Rattle.std.specs.Prelude.{◌≡◌, ◌+◌, ◌≤◌, ◌++◌, ℕ, List, [], Some, All, length, max, vec_len};
ghost use Rattle.dap_types.specs.Limits.{most_piece};
ghost use Rattle.xdr_encode.specs.Begun.{HaveBegun};
ghost use Rattle.xdr_encode.specs.Bodies.{FitsFile, HasNoFile, MayAsk, cost_in, dds_in, front_in, leaves_in, text_in};
ghost use Rattle.xdr_encode.specs.Rows.{front_text};
ghost use Rattle.xdr_encode.specs.Sent.{IsInside, leaves_cost, leaves_xdr};
ghost use Rattle.xdr_encode.specs.Streamed.{HasStreamCauses, StopsAtFault, Streams, StreamsAlone};

use crate::body::Body;
use crate::kept::Rows;
use crate::leaf::Leaf;
use crate::leaves::send_leaves;
use crate::streamed::{Streamed, streamed_of};
use crate::table_rows::put_front;
use dap_outside::{Buffer, Shelf, Sink};
use slab_fill::Gate;
use std::thread::Threads;

/// Puts a body: its head, the rows of a table, and the XDR of the leaves of a file. The rooms have 65,536 bytes
/// each. Takes no memory.
pub fn send_body<R: Threads + Sync, S: Shelf, O: Sink, G: Gate>(
    rt: &R,
    shelf: &mut S,
    file: &mut S::File,
    out: &mut O,
    buffer: &mut Buffer,
    head: &[u8],
    rows: &Option<Rows>,
    leaves: &[Leaf],
    raw: &mut [u8],
    sent: &mut [u8],
    workers: u32,
    gate: &G,
) -> Streamed
    requires inside { All (IsInside (S.size_of shelf.old file.old)) leaves.now }
    requires raw_room { length raw.old ≡ most_piece }
    requires sent_room { length sent.old ≡ most_piece }
    requires some { 1 ≤ workers }
    requires many { workers ≤ 64 }
    ensures body { (bytes : List ℕ) → S.content shelf.old file.old ≡ Some bytes → Streams result (O.written out.old) (O.written out.new) (front_text head.now rows.now ++ leaves_xdr leaves.now bytes) }
    ensures stops { (bytes : List ℕ) → S.content shelf.old file.old ≡ Some bytes → StopsAtFault result (front_text head.now rows.now ++ leaves_xdr leaves.now bytes) (λ put asked. HaveBegun leaves.now bytes (length (front_text head.now rows.now)) put asked) (O.written out.old) (O.written out.new) (S.asked shelf.old) (S.asked shelf.new) }
    ensures same_file { S.content shelf.new file.new ≡ S.content shelf.old file.old }
    ensures same_size { S.size_of shelf.new file.new ≡ S.size_of shelf.old file.old }
    ensures files { S.files shelf.new ≡ S.files shelf.old }
    ensures asked { S.asked shelf.new ≤ S.asked shelf.old + leaves_cost leaves.now }
    ensures greatest { S.greatest shelf.new ≤ max (S.greatest shelf.old) most_piece }
    ensures cause { HasStreamCauses result (S.faults shelf.old) (S.faults shelf.new) (O.put_faults out.old) (O.put_faults out.new) }
    ensures beside { O.beside_writing out.new ≡ O.beside_writing out.old }
    ensures alone { leaves.now ≡ [] → (shelf.new ≡ shelf.old) × StreamsAlone result (O.written out.old) (O.written out.new) (front_text head.now rows.now) }
{
    let Ok(()) = put_front(buffer, out, head, rows) else {
        return Streamed::WriteFault;
    };
    streamed_of(send_leaves(
        rt, shelf, file, out, buffer, leaves, raw, sent, workers, gate,
    ))
}

/// The same in rooms that keep their lengths.
fn send_in_rooms<R: Threads + Sync, S: Shelf, O: Sink, G: Gate>(
    rt: &R,
    shelf: &mut S,
    file: &mut S::File,
    out: &mut O,
    buffer: &mut Buffer,
    head: &[u8],
    rows: &Option<Rows>,
    leaves: &[Leaf],
    raw: &mut Vec<u8>,
    sent: &mut Vec<u8>,
    workers: u32,
    gate: &G,
) -> Streamed
    requires inside { All (IsInside (S.size_of shelf.old file.old)) leaves.now }
    requires raw_room { vec_len raw.old ≡ most_piece }
    requires sent_room { vec_len sent.old ≡ most_piece }
    requires some { 1 ≤ workers }
    requires many { workers ≤ 64 }
    ensures raw_room { vec_len raw.new ≡ most_piece }
    ensures sent_room { vec_len sent.new ≡ most_piece }
    ensures body { (bytes : List ℕ) → S.content shelf.old file.old ≡ Some bytes → Streams result (O.written out.old) (O.written out.new) (front_text head.now rows.now ++ leaves_xdr leaves.now bytes) }
    ensures stops { (bytes : List ℕ) → S.content shelf.old file.old ≡ Some bytes → StopsAtFault result (front_text head.now rows.now ++ leaves_xdr leaves.now bytes) (λ put asked. HaveBegun leaves.now bytes (length (front_text head.now rows.now)) put asked) (O.written out.old) (O.written out.new) (S.asked shelf.old) (S.asked shelf.new) }
    ensures same_file { S.content shelf.new file.new ≡ S.content shelf.old file.old }
    ensures same_size { S.size_of shelf.new file.new ≡ S.size_of shelf.old file.old }
    ensures files { S.files shelf.new ≡ S.files shelf.old }
    ensures asked { S.asked shelf.new ≤ S.asked shelf.old + leaves_cost leaves.now }
    ensures greatest { S.greatest shelf.new ≤ max (S.greatest shelf.old) most_piece }
    ensures cause { HasStreamCauses result (S.faults shelf.old) (S.faults shelf.new) (O.put_faults out.old) (O.put_faults out.new) }
    ensures beside { O.beside_writing out.new ≡ O.beside_writing out.old }
    ensures alone { leaves.now ≡ [] → (shelf.new ≡ shelf.old) × StreamsAlone result (O.written out.old) (O.written out.new) (front_text head.now rows.now) }
{
    let raw = raw.as_mut_slice();
    let sent = sent.as_mut_slice();
    send_body(
        rt, shelf, file, out, buffer, head, rows, leaves, raw, sent, workers, gate,
    )
}

impl Body {
    /// The DDS of what is sent.
    #[tactic(auto, unfolding(crate::specs::Bodies::dds_in))]
    pub fn dds(&self) -> &[u8]
        ensures { result.now ≡ dds_in self.now }
    {
        let head = self.head.bytes();
        &head[..self.dds_len.min(head.len())]
    }

    /// Puts the body, reading the file in batches of at most 65,536 bytes. Takes no memory.
    #[tactic(auto, unfolding(crate::specs::Bodies::text_in, crate::specs::Bodies::dds_in, crate::specs::Bodies::cost_in, crate::specs::Bodies::FitsFile, crate::specs::Bodies::HasNoFile, crate::specs::Bodies::MayAsk))]
    pub fn stream<R: Threads + Sync, S: Shelf, O: Sink, G: Gate>(
        &mut self,
        rt: &R,
        shelf: &mut S,
        file: &mut S::File,
        out: &mut O,
        workers: u32,
        gate: &G,
    ) -> Streamed
        requires fits { FitsFile self.old (S.size_of shelf.old file.old) }
        requires some { 1 ≤ workers }
        requires many { workers ≤ 64 }
        ensures body { (bytes : List ℕ) → S.content shelf.old file.old ≡ Some bytes → Streams result (O.written out.old) (O.written out.new) (text_in self.old bytes) }
        ensures stops { (bytes : List ℕ) → S.content shelf.old file.old ≡ Some bytes → StopsAtFault result (text_in self.old bytes) (MayAsk self.old bytes) (O.written out.old) (O.written out.new) (S.asked shelf.old) (S.asked shelf.new) }
        ensures same_file { S.content shelf.new file.new ≡ S.content shelf.old file.old }
        ensures same_size { S.size_of shelf.new file.new ≡ S.size_of shelf.old file.old }
        ensures same { (front_in self.new ≡ front_in self.old) × (leaves_in self.new ≡ leaves_in self.old) }
        ensures fits_still { (file_len : ℕ) → FitsFile self.old file_len → FitsFile self.new file_len }
        ensures same_dds { dds_in self.new ≡ dds_in self.old }
        ensures files { S.files shelf.new ≡ S.files shelf.old }
        ensures asked { S.asked shelf.new ≤ S.asked shelf.old + cost_in self.old }
        ensures greatest { S.greatest shelf.new ≤ max (S.greatest shelf.old) most_piece }
        ensures cause { HasStreamCauses result (S.faults shelf.old) (S.faults shelf.new) (O.put_faults out.old) (O.put_faults out.new) }
        ensures beside { O.beside_writing out.new ≡ O.beside_writing out.old }
        // A body without values of a file goes out whatever the shelf tells, and asks it nothing.
        ensures alone { HasNoFile self.old → (shelf.new ≡ shelf.old) × ((bytes : List ℕ) → StreamsAlone result (O.written out.old) (O.written out.new) (text_in self.old bytes)) }
    {
        let mut buffer = Buffer::new();
        let raw = &mut self.raw;
        let sent = &mut self.sent;
        let head = self.head.bytes();
        let rows = &self.rows;
        let leaves = self.leaves.items();
        send_in_rooms(
            rt,
            shelf,
            file,
            out,
            &mut buffer,
            head,
            rows,
            leaves,
            raw,
            sent,
            workers,
            gate,
        )
    }
}
