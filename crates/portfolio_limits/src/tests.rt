// Files with what is answered for each: how many investees and posts it holds, or `X` and where it stops, as line,
// refusal, place and source.
use portfolio::layout::read;
use std::alloc::{AllocError, Global};
use std::test::Fail;

fn answer(heap: Global, bytes: &[u8]) -> Result<String, AllocError> {
    match read(bytes) {
        Ok(portfolio) => {
            let investees = portfolio.investees().len();
            let posts = portfolio.posts().len();
            format!(in heap; "{investees} {posts}")
        }
        Err(stop) => {
            let line = stop.line;
            let refusal = stop.fault.refusal.number();
            let place = stop.fault.place;
            let source = stop.fault.source;
            format!(in heap; "X {line} {refusal} {place} {source}")
        }
    }
}

const SMALL_FILES: &[(&str, &str)] = &[
    ("", "X 1 32 0 0"),
    ("0 0 1", "X 1 32 0 0"),
    ("0 0 1\n", "0 0"),
    ("0 0 2\n", "0 0"),
    ("0 0 3\n", "X 1 31 0 0"),
    ("0 0 0\n", "X 1 31 0 0"),
    ("201 0 1\n", "X 1 31 0 0"),
    ("200 0 1\n", "X 2 32 0 0"),
    ("0 1001 1\n", "X 1 31 0 0"),
    ("0 1000 1\n", "X 2 32 0 0"),
    // 32 before 30, and 30 before 31
    ("0 x 1", "X 1 32 0 0"),
    ("201 x 3\n", "X 1 30 2 0"),
    ("0 0 1\n\n", "X 2 32 0 0"),
    ("0 0 1\n0", "X 2 32 0 0"),
    ("\n", "X 1 30 1 0"),
    ("0\n", "X 1 30 2 0"),
    ("0 0\n", "X 1 30 3 0"),
    ("0 0 1 1\n", "X 1 30 4 0"),
    ("0 0 1 \n", "X 1 30 4 0"),
    ("0 0 1\r\n", "X 1 30 3 0"),
    ("0  0 1\n", "X 1 30 2 0"),
    (" 0 0 1\n", "X 1 30 1 0"),
    ("00 0 1\n", "X 1 30 1 0"),
    ("0 01 1\n", "X 1 30 2 0"),
    ("9999999999999 0 1\n", "X 1 31 0 0"),
    ("10000000000000 0 1\n", "X 1 30 1 0"),
    ("0 1 1\n1 7 1\n60000\n", "0 1"),
    ("0 1 1\n1 7 1\n", "X 3 32 0 0"),
    ("0 1 1\n1 7\n60000\n", "X 2 30 3 0"),
    ("0 2 1\n1 7 1\n2 7 1\n60000\n6 0\n", "X 5 30 2 0"),
    ("0 2 1\n1 7 1\n2 7 1\n60000\n-1\n", "X 5 30 1 0"),
    ("0 2 1\n1 7 1\n2 7 1\n60000\n6x\n", "X 5 30 1 0"),
    ("0 1 1\n1 7 1\n60000\n1", "X 4 32 0 0"),
    ("0 1 1\n1 7 1\n60000", "X 3 32 0 0"),
    ("0 1 1\n1 7 1\n60000\r\n", "X 3 30 1 0"),
    ("0 1 1\n1 7 1\n060000\n", "X 3 30 1 0"),
    ("0 1 1\n1 7 1\n9999999999999\n", "0 1"),
    ("0 1 1\n1 7 1\n10000000000000\n", "X 3 30 1 0"),
    ("0 1 1\n1  7 1\n60000\n", "X 2 30 2 0"),
    ("0 1 1\n1 7 1 \n60000\n", "X 2 30 4 0"),
    // from the top: an earlier line before a later one, and in one line 32 before 30
    ("0 1 1\n1 7 x\n60000", "X 2 30 3 0"),
    ("0 1 1\n1 7 1\nx", "X 3 32 0 0"),
];

#[test]
fn small_files(rt: HostRuntime) -> Result<(), Fail> {
    for (file, expected) in SMALL_FILES {
        let text = answer(rt.alloc(), file.as_bytes())?;
        assert!(rt; text.as_str() == *expected, "{}", *file);
    }
    Ok(())
}

// The file of one investee, whose line ends with this method.
fn with_method(heap: Global, method: &str) -> Result<String, AllocError> {
    format!(in heap; "1 0 1\n7 5 0 2 200 0 10000 0 0 0 0 0 0 {method}\n")
}

const METHODS: &[(&str, &str)] = &[
    ("R 1001 1", "1 0"),
    ("R 1001", "X 2 30 16 0"),
    ("R 1001 1 1", "X 2 30 17 0"),
    ("E 1 1", "1 0"),
    ("E", "X 2 30 15 0"),
    ("X 1 1", "X 2 30 14 0"),
    ("r 1 1", "X 2 30 14 0"),
    ("RR 1 1", "X 2 30 14 0"),
    ("1 1", "X 2 30 14 0"),
    ("", "X 2 30 14 0"),
    ("P 0", "1 0"),
    ("P 0 1", "X 2 30 16 0"),
    ("P 1 6 1000", "1 0"),
    ("P 1 6", "X 2 30 17 0"),
    ("P 2 6 1000 6", "X 2 30 19 0"),
    (
        "P 16 1 1 1 1 1 1 1 1 1 1 1 1 1 1 1 1 1 1 1 1 1 1 1 1 1 1 1 1 1 1 1 1",
        "1 0",
    ),
    (
        "P 17 1 1 1 1 1 1 1 1 1 1 1 1 1 1 1 1 1 1 1 1 1 1 1 1 1 1 1 1 1 1 1 1 1 1",
        "1 0",
    ),
    (
        "P 17 1 1 1 1 1 1 1 1 1 1 1 1 1 1 1 1 1 1 1 1 1 1 1 1 1 1 1 1 1 1 1 1 1 x",
        "X 2 30 49 0",
    ),
    ("P 9999999999999", "X 2 30 16 0"),
    ("P 9999999999999 1 1 1", "X 2 30 19 0"),
    ("P 10000000000000 1 1", "X 2 30 15 0"),
];

#[test]
fn methods(rt: HostRuntime) -> Result<(), Fail> {
    for (method, expected) in METHODS {
        let file = with_method(rt.alloc(), method)?;
        let text = answer(rt.alloc(), file.as_str().as_bytes())?;
        assert!(rt; text.as_str() == *expected, "{}", *method);
    }
    Ok(())
}

// So many copies of a text.
fn repeated(heap: Global, text: &str, count: usize) -> Result<String, AllocError> {
    let mut all = String::new(heap);
    for _ in 0..count {
        all.push_str(text)?;
    }
    Ok(all)
}

// A first line of so many bytes, of which the last is its line feed: `0 0` and ones with spaces before them.
fn first_line(heap: Global, ones: usize, end: &str) -> Result<String, AllocError> {
    let tail = repeated(heap, " 1", ones)?;
    format!(in heap; "0 0{tail}{end}\n")
}

#[test]
fn long_lines(rt: HostRuntime) -> Result<(), Fail> {
    // 512 bytes with the line feed: 3 + 2 × 254 + 1
    let longest = first_line(rt.alloc(), 254, "")?;
    assert!(rt; longest.len() == 512);
    let text = answer(rt.alloc(), longest.as_str().as_bytes())?;
    assert!(rt; text.as_str() == "X 1 30 4 0");
    let over = first_line(rt.alloc(), 254, "1")?;
    assert!(rt; over.len() == 513);
    let text = answer(rt.alloc(), over.as_str().as_bytes())?;
    assert!(rt; text.as_str() == "X 1 30 0 0");
    Ok(())
}

// An investee's line with so many terms of an energy bill, without its line feed.
fn long_bill(heap: Global, id: &str, terms: usize) -> Result<String, AllocError> {
    let numbers = repeated(heap, " 1 1", terms)?;
    format!(in heap; "{id} 5 0 2 200 0 10000 0 0 0 0 0 0 P {terms}{numbers}")
}

#[test]
fn long_bills(rt: HostRuntime) -> Result<(), Fail> {
    // 512 bytes with the line feed: 39 + 4 × 118 + 1
    let longest = long_bill(rt.alloc(), "777", 118)?;
    let file = format!(in rt.alloc(); "1 0 1\n{longest}\n")?;
    assert!(rt; file.len() == 6 + 512);
    let text = answer(rt.alloc(), file.as_str().as_bytes())?;
    assert!(rt; text.as_str() == "1 0");
    let over = long_bill(rt.alloc(), "7777", 118)?;
    let file = format!(in rt.alloc(); "1 0 1\n{over}\n")?;
    assert!(rt; file.len() == 6 + 513);
    let text = answer(rt.alloc(), file.as_str().as_bytes())?;
    assert!(rt; text.as_str() == "X 2 30 0 0");
    // whatever it holds, but without a line feed it is missing
    let file = format!(in rt.alloc(); "1 0 1\n{over}x\n")?;
    let text = answer(rt.alloc(), file.as_str().as_bytes())?;
    assert!(rt; text.as_str() == "X 2 30 0 0");
    let file = format!(in rt.alloc(); "1 0 1\n{over}")?;
    let text = answer(rt.alloc(), file.as_str().as_bytes())?;
    assert!(rt; text.as_str() == "X 2 32 0 0");
    Ok(())
}

// A file of 65,536 bytes that is laid out, and the same with one byte more.
#[test]
fn longest_file(rt: HostRuntime) -> Result<(), Fail> {
    let longest = long_bill(rt.alloc(), "777", 118)?;
    let last = long_bill(rt.alloc(), "777", 116)?;
    // 8 + 127 × 512 + 504 bytes
    let mut file = String::new(rt.alloc());
    file.push_str("128 0 1\n")?;
    for _ in 0..127 {
        file.push_str(longest.as_str())?;
        file.push_str("\n")?;
    }
    file.push_str(last.as_str())?;
    file.push_str("\n")?;
    assert!(rt; file.len() == 65_536);
    let text = answer(rt.alloc(), file.as_str().as_bytes())?;
    assert!(rt; text.as_str() == "128 0");
    file.push_str("1")?;
    let text = answer(rt.alloc(), file.as_str().as_bytes())?;
    assert!(rt; text.as_str() == "X 1 31 0 0");
    Ok(())
}

// A file without investees and with a thousand posts, the balances of which have 13 digits, and what follows it.
fn many_posts(heap: Global, key: &str, after: &str) -> Result<String, AllocError> {
    let keys = repeated(heap, key, 1_000)?;
    let balances = repeated(heap, "9999999999999\n", 1_000)?;
    format!(in heap; "0 1000 1\n{keys}{balances}{after}")
}

#[test]
fn large_files(rt: HostRuntime) -> Result<(), Fail> {
    // 9 + 1,000 × 28 + 1,000 × 14 bytes
    let file = many_posts(rt.alloc(), "9999999999999 999999999 999\n", "")?;
    assert!(rt; file.len() == 42_009);
    let text = answer(rt.alloc(), file.as_str().as_bytes())?;
    assert!(rt; text.as_str() == "0 1000");
    // as many bytes as a file may have, and one more
    let rest = repeated(rt.alloc(), "1", 23_527)?;
    let full = many_posts(rt.alloc(), "9999999999999 999999999 999\n", rest.as_str())?;
    assert!(rt; full.len() == 65_536);
    let text = answer(rt.alloc(), full.as_str().as_bytes())?;
    assert!(rt; text.as_str() == "X 2002 32 0 0");
    let rest = repeated(rt.alloc(), "1", 23_528)?;
    let over = many_posts(rt.alloc(), "9999999999999 999999999 999\n", rest.as_str())?;
    let text = answer(rt.alloc(), over.as_str().as_bytes())?;
    assert!(rt; text.as_str() == "X 1 31 0 0");
    Ok(())
}

// What cursors give: each investee, and each key with its balance.
#[test]
fn cursors(rt: HostRuntime) -> Result<(), Fail> {
    let file = "1 2 2\n7 5 0 2 200 0 10000 0 0 0 0 0 0 R 1001 1\n1 7 1\n2 8 3\n60000\n70000\n";
    let Ok(portfolio) = read(file.as_bytes()) else {
        return Err(Fail::new("laid out"));
    };
    let mut investees = portfolio.investees();
    let Some(entry) = investees.next() else {
        return Err(Fail::new("an investee"));
    };
    assert!(rt; entry.fields.id == 7 && entry.fields.figures.revenue == 10_000);
    assert!(rt; investees.next().is_none());
    let mut posts = portfolio.posts();
    let Some(first) = posts.next() else {
        return Err(Fail::new("a post"));
    };
    assert!(rt; first.branch == 1 && first.id == 7 && first.month == 1 && first.balance == 60_000);
    let Some(second) = posts.next() else {
        return Err(Fail::new("another post"));
    };
    assert!(rt;
        second.branch == 2 && second.id == 8 && second.month == 3 && second.balance == 70_000
    );
    assert!(rt; posts.next().is_none());
    Ok(())
}
