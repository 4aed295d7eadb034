use book::book::Book;
use pages::page::page;
use rules::figures::Figures;
use rules::investees::InvesteeFields;
use rules::national::National;
use rules::rule::Rule;
use sources::reported::Reported;
use std::alloc::Global;
use std::test::Fail;

// A general loan to an investee of medium size, with a revenue of 10,000 wan.
fn loan(id: u64) -> InvesteeFields {
    let figures = Figures {
        investment: 0,
        revenue: 10_000,
        total_assets: 0,
        initial_value: 0,
    };
    InvesteeFields {
        id,
        kind: 5,
        sector: 0,
        size: 2,
        days: 200,
        figures,
    }
}

fn reported(kilograms: u64) -> Reported {
    Reported { kilograms, mark: 1 }
}

// The page of a book in a buffer of 8,192 dots, up to the first dot after it.
fn written<R: Rule>(heap: Global, book: &Book<'_, R>) -> Result<Vec<u8>, Fail> {
    let mut buffer = vec![in heap; b'.'; 8_192]?;
    let end = page(book, buffer.as_mut_slice())?;
    buffer.truncate(end + 1);
    Ok(buffer)
}

#[test]
fn empty_book(rt: HostRuntime) -> Result<(), Fail> {
    let book = Book::new(&National);
    let text = written(rt.alloc(), &book)?;
    assert!(rt; text.as_slice() == b"FE 0\nT 0\n.".as_slice());
    Ok(())
}

#[test]
fn two_branches(rt: HostRuntime) -> Result<(), Fail> {
    let mut book = Book::new(&National);
    book.open(loan(7), &reported(1_001))?;
    book.post(1, 7, 1, 60_000)?;
    book.post(2, 7, 1, 60_000)?;
    let text = written(rt.alloc(), &book)?;
    assert!(rt; text.as_slice() == b"FE 1\n7 1001 0 1\nB 1 500\nB 2 501\nT 1001\n.".as_slice());
    Ok(())
}

// A buffer one byte short is refused and left as it was.
#[test]
fn one_byte_short(rt: HostRuntime) -> Result<(), Fail> {
    let mut book = Book::new(&National);
    book.open(loan(7), &reported(1_001))?;
    let mut buffer = vec![in rt.alloc(); b'.'; 8_191]?;
    let refusal = page(&book, buffer.as_mut_slice()).err();
    assert_eq!(rt; refusal.map(|fault| fault.refusal.number()), Some(33));
    assert!(rt; buffer.iter().all(|byte| *byte == b'.'));
    Ok(())
}

// 200 investees with ids of ten digits and 10^12 kg each, five to a branch.
#[test]
fn full_page(rt: HostRuntime) -> Result<(), Fail> {
    let mut book = Book::new(&National);
    for place in 0..200 {
        let id = 4_294_967_295 - place;
        book.open(loan(id), &reported(1_000_000_000_000))?;
        book.post(place % 40 + 1, id, 1, 120_000)?;
    }
    let text = written(rt.alloc(), &book)?;
    assert_eq!(rt; text.len(), 6_577);
    Ok(())
}
