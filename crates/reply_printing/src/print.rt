//! Prints the replies to a script's requests.
ghost use Rattle.std.specs.Prelude.{◌≡◌, ◌+◌, ◌<◌, ◌≤◌, ◌^◌, ℕ, [], length, map, IsPermutation};
ghost use Rattle.std.specs.List.{flat_map};
ghost use Rattle.aio_model.specs.Serving.Asked.{asked};
ghost use Rattle.aio_model.specs.Serving.SerialHistory.{asked_name, placed_name, CountsFrom, indices_of, errors_of};
ghost use Rattle.aio_model.specs.Scripts.PrintedText.{line_for, line_of, end_line, printed_text};
ghost use Rattle.aio_script.specs.Printing.{PutsOnPage, Prints};
ghost use Rattle.reply_printing.specs.Standings.{AreInOrder, HaveStreamsBelow, LeadThroughAll};

use crate::links::Links;
use crate::order::ReplyOrder;
use aio_model::{Placed, Request, Step, What};
use aio_script::{Page, WriteFault, hand_over, print_end, print_line};
use aio_words::Sink;

/// Prints the line of each request in the script's order, each with its reply's place among the served ones, and then the
/// end line. Done once the page's last text was handed over. The time is that of the lines, of the replies and of their
/// text. No memory is taken.
pub fn print_replies<K: Sink>(
    sink: &mut K,
    page: &mut Page,
    order: &mut ReplyOrder,
    lines: &[Step],
    served: &[Placed],
) -> Result<(), WriteFault>
    requires empty { page.old ≡ [] }
    requires room { length served.now ≤ order.old }
    requires streams { HaveStreamsBelow 64 lines.now }
    requires each_once { IsPermutation (map asked_name (asked lines.now)) (map placed_name served.now) }
    requires in_order { (stream : ℕ) → CountsFrom 0 (indices_of stream served.now) }
    requires few { length served.now < 2 ^ 32 }
    ensures printed { Prints (printed_text (asked lines.now) served.now) (K.held sink.old) (K.held sink.new) (K.faults sink.old) (K.faults sink.new) result }
    ensures room { order.new ≡ order.old }
{
    put_replies(sink, page, &mut order.links, lines, served)?;
    hand_over(sink, page)
}

/// How many of the replies are errors.
pub fn errors_in(served: &[Placed]) -> u32
    requires { length served.now < 2 ^ 32 }
    ensures { result ≡ errors_of served.now }
{
    served
        .iter()
        .filter(|placed| placed.reply.is_error())
        .count() as u32
}

fn put_replies<K: Sink>(
    sink: &mut K,
    page: &mut Page,
    links: &mut Links,
    lines: &[Step],
    served: &[Placed],
) -> Result<(), WriteFault>
    requires room { length served.now ≤ length links.old.behind.items }
    requires streams { HaveStreamsBelow 64 lines.now }
    requires order { AreInOrder lines.now served.now }
    requires few { length served.now < 2 ^ 32 }
    ensures gathers { PutsOnPage (printed_text (asked lines.now) served.now) page.old page.new (K.held sink.old) (K.held sink.new) (K.faults sink.old) (K.faults sink.new) result }
    ensures room { length links.new.behind.items ≡ length links.old.behind.items }
{
    links.link(served);
    print_lines(sink, page, links, lines, served)?;
    print_last(sink, page, served.len() as u32, errors_in(served))
}

fn print_lines<K: Sink>(
    sink: &mut K,
    page: &mut Page,
    links: &mut Links,
    lines: &[Step],
    served: &[Placed],
) -> Result<(), WriteFault>
    requires linked { LeadThroughAll served.now links.old.next links.old.behind.items }
    requires room { length served.now ≤ length links.old.behind.items }
    requires streams { HaveStreamsBelow 64 lines.now }
    requires order { AreInOrder lines.now served.now }
    ensures gathers { PutsOnPage (flat_map (line_for served.now) (asked lines.now)) page.old page.new (K.held sink.old) (K.held sink.new) (K.faults sink.old) (K.faults sink.new) result }
    ensures room { length links.new.behind.items ≡ length links.old.behind.items }
{
    for line in lines {
        if let What::Ask(request) = &line.what {
            let place = links.take(line.stream);
            print_one(sink, page, &served[place as usize], place, request)?;
        }
    }
    Ok(())
}

fn print_one<K: Sink>(
    sink: &mut K,
    page: &mut Page,
    placed: &Placed,
    place: u32,
    request: &Request,
) -> Result<(), WriteFault>
    ensures { PutsOnPage (line_of place placed.now.stream request.now placed.now.reply) page.old page.new (K.held sink.old) (K.held sink.new) (K.faults sink.old) (K.faults sink.new) result }
{
    print_line(sink, page, placed, place, request)
}

fn print_last<K: Sink>(
    sink: &mut K,
    page: &mut Page,
    requests: u32,
    errors: u32,
) -> Result<(), WriteFault>
    ensures { PutsOnPage (end_line requests errors) page.old page.new (K.held sink.old) (K.held sink.new) (K.faults sink.old) (K.faults sink.new) result }
{
    print_end(sink, page, requests, errors)
}
