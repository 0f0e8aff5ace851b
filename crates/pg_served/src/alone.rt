//! A machine, fed with the requests of a session one at a time.

ghost use Rattle.std.specs.Prelude.{◌≡◌, IfOk, map};
ghost use Rattle.std.specs.List.{concat};
ghost use Rattle.pg_machine.specs.Sessions.{alone, spoken};
ghost use Rattle.pg_machine.specs.Machines.{service_of};
ghost use Rattle.pg_text.specs.Views.{booking_of};

use pg_desk::Booking;
use pg_machine::Machine;
use pg_types::{Blob, List, OutOfMemory};
use std::alloc::Global;

/// The bytes of a request.
fn request_of(alloc: Global, booking: &Booking) -> Result<Blob, OutOfMemory>
    ensures { IfOk result (λ bytes. bytes ≡ concat booking.now.parts) }
{
    let mut bytes = Vec::new(alloc);
    for part in booking.parts.as_slice() {
        bytes.extend_from_slice(part.as_slice())?;
    }
    Ok(Blob::new(bytes))
}

/// The bytes of each request.
fn requests_of(alloc: Global, book: &List<Booking>) -> Result<Vec<Blob>, OutOfMemory>
    ensures { IfOk result (λ requests. requests.items ≡ map (λ booking. concat booking.parts) book.now) }
{
    let mut requests = Vec::new(alloc);
    for booking in book.as_slice() {
        if requests.push(request_of(alloc, booking)?).is_err() {
            return Err(OutOfMemory);
        }
    }
    Ok(requests)
}

/// The machine's reply to each request of the book where it is fed one request at a time: the whole reply to one, and then
/// the next.
pub fn feed_alone(
    alloc: Global,
    machine: &Machine,
    book: &List<Booking>,
) -> Result<List<Blob>, OutOfMemory>
    ensures { IfOk result (λ replies. replies ≡ map spoken (alone (service_of machine.now) 0 (map booking_of book.now))) }
{
    let requests = requests_of(alloc, book)?;
    machine.alone(alloc, requests.as_slice())
}
