// The answer to a file, in a buffer that the caller lends.
ghost use Rattle.std.specs.Prelude.{◌≡◌, ◌≤◌, length, Ok, IfOk, OnOk};
ghost use Rattle.loading.specs.Loading.{entered, loading_of, LoadsPortfolios};
ghost use Rattle.pages.specs.Placed.{room, text_result, buffer_after};
ghost use Rattle.portfolio.specs.Seen.{plain_portfolio};
ghost use Rattle.answering.specs.Answers.{answer_of, answer_to, AnswerAddsUp};

use crate::stops::write_stop;
use book::book::Book;
use faults::Fault;
use loading::loading::load;
use pages::page::{check_room, page};
use portfolio::file::Portfolio;
use portfolio::layout::read;

// The answer to a portfolio. A function of its own, so that a book is made only where there is one, and stays where it is made.
fn answer_portfolio(portfolio: Portfolio<'_>, buffer: &mut [u8]) -> Result<usize, Fault>
    requires { room ≤ length buffer.old }
    ensures result { result ≡ text_result (answer_of (Ok (entered (plain_portfolio portfolio.entry)))) buffer.old }
    ensures buffer { buffer.new ≡ buffer_after (answer_of (Ok (entered (plain_portfolio portfolio.entry)))) buffer.old }
    ensures within { IfOk result (λ length. length ≤ room) }
    ensures adds_up { OnOk result (AnswerAddsUp (Ok (entered (plain_portfolio portfolio.entry)))) }
{
    let mut book = Book::new(portfolio.guide().lent());
    match load(&mut book, portfolio) {
        Ok(()) => page(&book, buffer),
        Err(stop) => Ok(write_stop(buffer, stop)),
    }
}

/// The answer to any bytes as a portfolio file, at the start of the buffer, and how long it is: the page of the book,
/// or the one line `X line refusal place source`. The rest of the buffer stays. A buffer that is too short is refused
/// and left as it was.
pub fn answer(bytes: &[u8], buffer: &mut [u8]) -> Result<usize, Fault>
    ensures result { result ≡ text_result (answer_to bytes.now) buffer.old }
    ensures buffer { buffer.new ≡ buffer_after (answer_to bytes.now) buffer.old }
    ensures within { IfOk result (λ length. length ≤ room) }
    ensures portfolios { OnOk result (LoadsPortfolios bytes.now (loading_of bytes.now)) }
    ensures adds_up { OnOk result (AnswerAddsUp (loading_of bytes.now)) }
{
    // Asked before reading, as a stop needs the room too; `page` asks nothing of callers, so it tests again.
    check_room(buffer)?;
    match read(bytes) {
        Ok(portfolio) => answer_portfolio(portfolio, buffer),
        Err(stop) => Ok(write_stop(buffer, stop)),
    }
}
