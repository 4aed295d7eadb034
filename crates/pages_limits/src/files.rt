// Files with what is answered to each: the page of its book, or `X` and where it stops, as line, refusal, place and source.
use answering::answer::answer;
use book::book::Book;
use faults::Fault;
use loading::loading::load;
use pages::page::page;
use portfolio::layout::read;
use std::alloc::Global;
use std::test::Fail;

// The answer in a buffer of so many dots, and the buffer.
fn answered(
    heap: Global,
    file: &str,
    room: usize,
) -> Result<(Result<usize, Fault>, Vec<u8>), Fail> {
    let mut buffer = vec![in heap; b'.'; room]?;
    let length = answer(file.as_bytes(), buffer.as_mut_slice());
    Ok((length, buffer))
}

const ANSWERS: &[(&str, &str)] = &[
    ("0 0 1\n", "FE 0\nT 0\n"),
    (
        "1 2 1\n7 5 0 2 200 0 10000 0 0 0 0 0 0 R 1001 1\n1 7 1\n2 7 1\n60000\n60000\n",
        "FE 1\n7 1001 0 1\nB 1 500\nB 2 501\nT 1001\n",
    ),
    // where the layout stops, whatever the entries are
    ("", "X 1 32 0 0\n"),
    (
        "1 1 1\n7 5 0 2 200 0 10000 0 0 0 0 0 0 R 5 0\n41 7 1\nx\n",
        "X 4 30 1 0\n",
    ),
    // openings
    (
        "2 0 1\n7 5 0 2 200 0 10000 0 0 0 0 0 0 R 5 1\n7 5 0 2 200 0 10000 0 0 0 0 0 0 R 5 1\n",
        "X 3 14 0 0\n",
    ),
    (
        "2 0 1\n7 5 0 2 200 0 10000 0 0 0 0 0 0 R 5 1\n8 5 0 2 200 0 10000 0 0 0 0 0 0 R 5 0\n",
        "X 3 2 0 1\n",
    ),
    (
        "1 0 1\n7 7 0 2 200 0 10000 0 0 0 0 0 0 R 5 1\n",
        "X 2 12 0 0\n",
    ),
    (
        "1 0 1\n7 4 0 2 200 0 10000 0 0 0 0 0 0 R 5 1\n",
        "X 2 10 0 0\n",
    ),
    ("1 0 1\n7 5 0 2 200 0 0 0 0 0 0 0 0 R 5 1\n", "X 2 11 0 0\n"),
    (
        "1 0 1\n7 5 0 2 200 0 10000 0 0 0 0 0 0 R 5 3\n",
        "X 2 1 0 1\n",
    ),
    (
        "1 0 1\n7 5 0 2 200 0 10000 0 0 0 0 0 0 P 0\n",
        "X 2 3 0 2\n",
    ),
    (
        "1 0 1\n7 5 0 2 200 0 10000 0 0 0 0 0 0 P 16 1 1 1 1 1 1 1 1 1 1 1 1 1 1 1 1 1 1 1 1 1 1 1 1 1 1 1 1 1 1 1 1\n",
        "FE 1\n7 0 2 3\nT 0\n",
    ),
    (
        "1 0 1\n7 5 0 2 200 0 10000 0 0 0 0 0 0 P 17 1 1 1 1 1 1 1 1 1 1 1 1 1 1 1 1 1 1 1 1 1 1 1 1 1 1 1 1 1 1 1 1 1 1\n",
        "X 2 3 0 2\n",
    ),
    (
        "1 0 1\n7 5 0 2 200 0 10000 0 0 0 0 0 0 P 2 6 1 7 1\n",
        "X 2 1 2 2\n",
    ),
    (
        "1 0 1\n7 5 0 2 200 0 10000 0 0 0 0 0 0 E 500000000 1000000\n",
        "X 2 4 0 3\n",
    ),
    (
        "1 0 1\n7 5 0 2 200 0 10000 0 0 6 0 0 0 R 5 1\n",
        "X 2 5 0 5\n",
    ),
    (
        "1 0 1\n7 5 0 2 200 0 10000 0 0 0 0 1 0 R 5 1\n",
        "X 2 6 0 6\n",
    ),
    // posts, by the line of the key
    (
        "1 1 1\n7 5 0 2 200 0 10000 0 0 0 0 0 0 R 5 1\n41 7 1\n0\n",
        "X 3 20 0 0\n",
    ),
    (
        "1 1 1\n7 5 0 2 200 0 10000 0 0 0 0 0 0 R 5 1\n1 8 1\n0\n",
        "X 3 16 0 0\n",
    ),
    (
        "1 2 1\n7 5 0 2 200 0 10000 0 0 0 0 0 0 R 5 1\n1 7 1\n1 7 1\n5\n5\n",
        "X 4 22 0 0\n",
    ),
    (
        "1 2 1\n7 5 0 2 200 0 10000 0 0 0 0 0 0 R 5 1\n1 7 1\n2 7 1\n9000000\n1\n",
        "X 4 25 0 0\n",
    ),
];

// The text stands at the start of the buffer, and dots after it.
fn holds(buffer: &[u8], text: &str) -> bool {
    buffer.starts_with(text.as_bytes()) && buffer.iter().skip(text.len()).all(|byte| *byte == b'.')
}

#[test]
fn answers(rt: HostRuntime) -> Result<(), Fail> {
    for (file, expected) in ANSWERS {
        let (length, buffer) = answered(rt.alloc(), file, 8_192)?;
        assert_eq!(rt; length?, expected.len());
        assert!(rt; holds(buffer.as_slice(), expected), "{}", *file);
    }
    Ok(())
}

// A buffer one byte short is refused and left as it was, whatever the file says.
#[test]
fn one_byte_short(rt: HostRuntime) -> Result<(), Fail> {
    for (file, _) in ANSWERS {
        let (length, buffer) = answered(rt.alloc(), file, 8_191)?;
        assert_eq!(rt; length.err().map(|fault| fault.refusal.number()), Some(33));
        assert!(rt; buffer.iter().all(|byte| *byte == b'.'), "{}", *file);
    }
    Ok(())
}

// Files of which an entry is declined, with the answer, and the page of the book with the entries before it.
const DECLINED: &[(&str, &str, &str)] = &[
    (
        "3 1 1\n7 5 0 2 200 0 10000 0 0 0 0 0 0 R 1001 1\n7 5 0 2 200 0 10000 0 0 0 0 0 0 R 5 1\n8 5 0 2 200 0 10000 0 0 0 0 0 0 R 5 1\n1 7 1\n60000\n",
        "X 3 14 0 0\n",
        "FE 1\n7 0 2 1\nT 0\n",
    ),
    (
        "1 3 1\n7 5 0 2 200 0 10000 0 0 0 0 0 0 R 1001 1\n1 7 1\n2 7 13\n3 7 1\n60000\n60000\n60000\n",
        "X 4 20 0 0\n",
        "FE 1\n7 500 0 1\nB 1 500\nT 500\n",
    ),
];

#[test]
fn entries_before(rt: HostRuntime) -> Result<(), Fail> {
    for (file, expected, kept) in DECLINED {
        let (length, buffer) = answered(rt.alloc(), file, 8_192)?;
        assert_eq!(rt; length?, expected.len());
        assert!(rt; holds(buffer.as_slice(), expected), "{}", *file);
        let Ok(portfolio) = read(file.as_bytes()) else {
            return Err(Fail::new("laid out"));
        };
        let mut book = Book::new(portfolio.guide().lent());
        assert!(rt; load(&mut book, portfolio).is_err());
        let mut buffer = vec![in rt.alloc(); b'.'; 8_192]?;
        assert_eq!(rt; page(&book, buffer.as_mut_slice())?, kept.len());
        assert!(rt; holds(buffer.as_slice(), kept), "{}", *file);
    }
    Ok(())
}
