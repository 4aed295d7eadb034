// The line that says where a file stops.
ghost use Rattle.std.specs.Prelude.{◌≡◌, ◌^◌, ◌<◌, ◌≤◌, length};
ghost use Rattle.std.specs.List.{AllByRecursion};
ghost use Rattle.lines.specs.Writing.{Wrote};
ghost use Rattle.pages.specs.Placed.{room, placed};
ghost use Rattle.answering.specs.Stops.{stop_numbers, stop_line};

use entries::stop::Stop;
use lines::writing::Writer;

// The four numbers of a stop.
fn stop_numbers(stop: Stop) -> [u64; 4]
    ensures value { result ≡ stop_numbers stop }
    ensures fits { AllByRecursion (λ n. n < 2 ^ 64) (stop_numbers stop) }
{
    [
        stop.line as u64,
        u64::from(stop.fault.refusal.number()),
        u64::from(stop.fault.place),
        u64::from(stop.fault.source),
    ]
}

// `X line refusal place source`
fn put_stop(page: &mut Writer<'_>, stop: Stop) -> Option<()>
    ensures line { Wrote page.old (stop_line stop) page.new result }
    ensures fits { AllByRecursion (λ n. n < 2 ^ 64) (stop_numbers stop) }
{
    let numbers = stop_numbers(stop);
    page.put(b"X ")?;
    page.put_numbers(&numbers)
}

// Where a file stops, in a buffer with room for every page.
pub(crate) fn write_stop(buffer: &mut [u8], stop: Stop) -> usize
    requires { room ≤ length buffer.old }
    ensures bytes { result ≡ length (stop_line stop) }
    ensures within { result ≤ room }
    ensures buffer { buffer.new ≡ placed (stop_line stop) buffer.old }
{
    let mut page = Writer { buffer, at: 0 };
    put_stop(&mut page, stop).unwrap();
    page.at
}
