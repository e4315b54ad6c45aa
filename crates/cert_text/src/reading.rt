//! Reading a certificate.
ghost use Rattle.std.specs.Prelude.{◌≡◌, IfOk, OnOk};
ghost use Rattle.csv_table.specs.Gives.{Gives};
ghost use Rattle.cert_text.specs.CertText.{IsAnswer, cert_refusal};
ghost use Rattle.cert_text.specs.Heard.{made_onto};
ghost use Rattle.cert_text.specs.MadeBy.{made_by};
ghost use Rattle.cert_text.specs.Reading.{cert_of_text};
ghost use Rattle.cert_text.specs.Written.{CertFits};

use crate::builder::Builder;
use crate::cut::cut_at;
use crate::event::Event;
use crate::fault::CertFault;
use crate::hearing::Hearing;
use crate::parts::Cert;
use crate::position::Position;
use crate::words::read_line;
use pack_model::Memory;
use std::alloc::Global;

// Takes an event, if there is one.
fn take_if(builder: &mut Builder, event: Option<Event>) -> Result<(), Memory>
    ensures { OnOk result (made_by builder.new ≡ made_onto (made_by builder.old) event) }
{
    match event {
        None => Ok(()),
        Some(event) => builder.take(event),
    }
}

// The certificate that the lines of a text make, or the first refusal.
fn read_lines(alloc: Global, bytes: &[u8]) -> Result<Cert, CertFault>
    ensures { Gives (λ cert. cert) cert_refusal result (cert_of_text bytes.now) }
{
    let mut position = Position::new(alloc)?;
    let mut builder = Builder::new(alloc);
    let mut hearing = Hearing::new(alloc);
    let mut left = bytes;
    let mut number: u64 = 1;
    while let Some((line, after)) = cut_at(left, b'\n') {
        let Some(line) = read_line(alloc, line)? else {
            return Err(CertFault::BadLine(number));
        };
        let stands = position.take(&line)?;
        if !stands {
            return Err(CertFault::BadLine(number));
        }
        let (heard, event) = hearing.hear(alloc, line)?;
        take_if(&mut builder, event)?;
        hearing = heard;
        left = after;
        number += 1;
    }
    if !position.ended() {
        return Err(CertFault::Cut);
    }
    if !left.is_empty() {
        return Err(CertFault::BadLine(number));
    }
    Ok(builder.into_cert())
}

/// The certificate of a text in the format of CERT: lines that LF ends, from `canpack certificate 1` to `end`, with
/// a single space between two words. Marks change nothing of it.
///
/// # Errors
///
/// `BadLine(n)` where line n, counted from 1, is the first that no certificate has after the lines before it, or
/// where bytes follow the line `end` there; `Cut` where all lines can stand and `end` isn't among them; `Memory` where
/// memory runs out.
pub fn read_cert(alloc: Global, bytes: &[u8]) -> Result<Cert, CertFault>
    // What is returned is `cert_of_text` of the bytes, want of memory aside.
    ensures exact { Gives (λ cert. cert) cert_refusal result (cert_of_text bytes.now) }
    // And that is the certificate of the text, or why it has none.
    ensures answer { IsAnswer bytes.now (cert_of_text bytes.now) }
    // It can be written again.
    ensures fits { IfOk result CertFits }
{
    read_lines(alloc, bytes)
}
