//! The base of a stream.
ghost use Rattle.std.specs.Prelude.{◌≡◌, ◌≤◌, ◌<◌, ◌^◌, ℕ, length, OnOk, OnErr};
ghost use Rattle.std.specs.Int.{w16, to_be_bytes};
ghost use Rattle.std.specs.Io.KnownBytes.{Appends};
ghost use Rattle.disk_model.specs.Causes.{HasCause};
ghost use Rattle.cell_page.specs.Format.{IsSlotCount, IsPage, page_bytes};
ghost use Rattle.core_store.specs.Opening.{ArePages};
ghost use Rattle.ship_stream.specs.Reading.{base_bytes};
ghost use Rattle.script_lines.specs.Output.{AppendsFront};
ghost use Rattle.stream_writing.specs.Base.{pages_in};

use cell_page::Page;
use core_store::Frame;
use outside_io::{Sink, WriteFailed};
use script_lines::write_all;

/// No page takes more bytes than one of fourteen slots.
const PAGE_ROOM: usize = 1024;

/// Writes the number of pages.
fn write_number<W: Sink>(number: u16, out: &mut W) -> Result<(), WriteFailed>
    ensures ok { OnOk result (Appends (W.written out.old) (W.written out.new) (to_be_bytes w16 number)) }
    ensures front { OnErr result (AppendsFront (W.written out.old) (W.written out.new) (to_be_bytes w16 number)) }
    ensures cause { HasCause (W.faults out.old) (W.faults out.new) result }
{
    write_all(out, &number.to_be_bytes())
}

/// Writes a page by its one spelling.
fn write_page<W: Sink, const SLOTS: usize>(
    page: &Page<SLOTS>,
    out: &mut W,
) -> Result<(), WriteFailed>
    requires count { IsSlotCount SLOTS }
    requires spelled { (number : ℕ) × IsPage number page.now }
    ensures ok { OnOk result (Appends (W.written out.old) (W.written out.new) (page_bytes page.now)) }
    ensures front { OnErr result (AppendsFront (W.written out.old) (W.written out.new) (page_bytes page.now)) }
    ensures cause { HasCause (W.faults out.old) (W.faults out.new) result }
{
    let mut bytes = [0; PAGE_ROOM];
    let spelled = &mut bytes[..Page::<SLOTS>::encoded_len()];
    page.encode(spelled);
    write_all(out, spelled)
}

/// Writes the number of pages in two bytes, and then the pages, each by its one spelling. These are the frames of a store, one for
/// each page from 0 on. It takes no memory.
///
/// [`WriteFailed`] comes only where the sink's count of faults rose in this call. A front of the bytes was written then, and not all.
pub(crate) fn write_base<W: Sink, const SLOTS: usize>(
    frames: &[Frame<SLOTS>],
    out: &mut W,
) -> Result<(), WriteFailed>
    requires count { IsSlotCount SLOTS }
    requires few { length frames.now ≤ 1024 }
    requires pages { ArePages frames.now }
    ensures ok { OnOk result (Appends (W.written out.old) (W.written out.new) (base_bytes (length frames.now) (pages_in frames.now))) }
    ensures front { OnErr result (AppendsFront (W.written out.old) (W.written out.new) (base_bytes (length frames.now) (pages_in frames.now))) }
    ensures cause { HasCause (W.faults out.old) (W.faults out.new) result }
{
    match write_number(frames.len() as u16, out) {
        Ok(()) => {}
        Err(failed) => return Err(failed),
    }
    'pages: for frame in frames {
        match write_page(&frame.page, out) {
            Ok(()) => {}
            Err(failed) => return Err(failed),
        }
    }
    Ok(())
}
