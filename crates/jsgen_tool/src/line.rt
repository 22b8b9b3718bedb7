// The line that is said of a status. It takes no memory.
ghost use Rattle.std.specs.Prelude.{◌++◌, OnOk, OnErr, codes, decimal};
ghost use Rattle.std.specs.Io.KnownBytes.{Appends};
ghost use Rattle.jsgen_device.specs.Device.{HasCause, AppendsPart};
ghost use Rattle.jsgen_tool.specs.Lines.{Says, spot_row, spot_field, spot_text, line_of};

use crate::status::{Spot, Status};
use crate::transfer::push_both;
use itoa::Buffer;
use jsgen_device::{Failed, Sink};
use jsgen_fields::At;

// Pushes a text and a number behind it.
fn push_number<K: Sink>(sink: &mut K, text: &[u8], number: usize) -> Result<(), Failed>
    ensures all { OnOk result (Appends (K.got sink.old) (K.got sink.new) (text.now ++ decimal number)) }
    ensures part { OnErr result (AppendsPart (K.got sink.old) (K.got sink.new) (text.now ++ decimal number)) }
    ensures cause { HasCause (K.faults sink.old) (K.faults sink.new) result }
{
    let mut buffer = Buffer::new();
    push_both(sink, text, buffer.format(number).as_bytes())
}

fn push_row<K: Sink>(sink: &mut K, row: Option<usize>) -> Result<(), Failed>
    ensures all { OnOk result (Appends (K.got sink.old) (K.got sink.new) (spot_row row)) }
    ensures part { OnErr result (AppendsPart (K.got sink.old) (K.got sink.new) (spot_row row)) }
    ensures cause { HasCause (K.faults sink.old) (K.faults sink.new) result }
{
    match row {
        None => sink.push(b" head"),
        Some(row) => push_number(sink, b" row ", row),
    }
}

fn push_field<K: Sink>(sink: &mut K, at: At) -> Result<(), Failed>
    ensures all { OnOk result (Appends (K.got sink.old) (K.got sink.new) (spot_field at)) }
    ensures part { OnErr result (AppendsPart (K.got sink.old) (K.got sink.new) (spot_field at)) }
    ensures cause { HasCause (K.faults sink.old) (K.faults sink.new) result }
{
    if push_row(sink, at.row).is_err() {
        return Err(Failed);
    }
    push_number(sink, b" field ", at.field)
}

fn push_spot<K: Sink>(sink: &mut K, spot: Spot) -> Result<(), Failed>
    ensures all { OnOk result (Appends (K.got sink.old) (K.got sink.new) (spot_text spot)) }
    ensures part { OnErr result (AppendsPart (K.got sink.old) (K.got sink.new) (spot_text spot)) }
    ensures cause { HasCause (K.faults sink.old) (K.faults sink.new) result }
{
    match spot {
        Spot::Nowhere => Ok(()),
        Spot::Start(start) => push_number(sink, b" at ", start as usize),
        Spot::Row(row) => push_row(sink, Some(row)),
        Spot::Field(at) => push_field(sink, at),
    }
}

// Pushes a line but for its end.
fn push_said<K: Sink>(sink: &mut K, text: &[u8], spot: Spot) -> Result<(), Failed>
    ensures all { OnOk result (Appends (K.got sink.old) (K.got sink.new) (text.now ++ spot_text spot)) }
    ensures part { OnErr result (AppendsPart (K.got sink.old) (K.got sink.new) (text.now ++ spot_text spot)) }
    ensures cause { HasCause (K.faults sink.old) (K.faults sink.new) result }
{
    if sink.push(text).is_err() {
        return Err(Failed);
    }
    push_spot(sink, spot)
}

fn push_line<K: Sink>(sink: &mut K, text: &[u8], spot: Spot) -> Result<(), Failed>
    ensures all { OnOk result (Appends (K.got sink.old) (K.got sink.new) (text.now ++ spot_text spot ++ codes "\n")) }
    ensures part { OnErr result (AppendsPart (K.got sink.old) (K.got sink.new) (text.now ++ spot_text spot ++ codes "\n")) }
    ensures cause { HasCause (K.faults sink.old) (K.faults sink.new) result }
{
    if push_said(sink, text, spot).is_err() {
        return Err(Failed);
    }
    sink.push(b"\n")
}

/// Says the line of a status. A failure leaves the status as it is.
pub fn say<K: Sink>(err: &mut K, status: Status)
    ensures { Says (K.got err.old) (K.got err.new) (K.faults err.old) (K.faults err.new) (line_of status) }
{
    if let Some((text, spot)) = status.line() {
        let _ = push_line(err, text.as_bytes(), spot);
    }
}
