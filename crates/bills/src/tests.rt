// Bills with what is printed for each.
use crate::answer::answer;
use std::alloc::{AllocError, Global};
use std::test::Fail;

// Every message that a bill can get, and each kind of item that is refused.
const SMALL_BILLS: &[(&str, &str)] = &[
    ("", "total: 0 kg\nmean grade: -\n"),
    (
        "6 0 1\n",
        "item 1: row 6, quantity 0, grade 1: 0 kg\ntotal: 0 kg\nmean grade: -\n",
    ),
    (
        "6 1000 1\n3 1 3\n",
        "item 1: row 6, quantity 1000, grade 1: 571 kg\nitem 2: row 3, quantity 1, grade 3: 3 kg\ntotal: 574 kg\nmean grade: 1.01\n",
    ),
    (
        "6 10000000000 1\n",
        "item 1: row 6, quantity 10000000000, grade 1: 5703000000 kg\ntotal: 5703000000 kg\nmean grade: 1.00\n",
    ),
    (
        "1 454758364 5\n",
        "item 1: row 1, quantity 454758364, grade 5: 999999999686 kg\ntotal: 999999999686 kg\nmean grade: 5.00\n",
    ),
    ("6", "line 1: not ended by a line feed\n"),
    ("6 1 1\n6 1", "line 2: not ended by a line feed\n"),
    (
        "\n",
        "line 1: the row is not a number of 1 to 13 digits without leading zeros\n",
    ),
    (
        "6 1 1\n\n",
        "line 2: the row is not a number of 1 to 13 digits without leading zeros\n",
    ),
    (
        " 6 1 1\n",
        "line 1: the row is not a number of 1 to 13 digits without leading zeros\n",
    ),
    (
        "6\n",
        "line 1: the quantity is not a number of 1 to 13 digits without leading zeros\n",
    ),
    (
        "6 01 1\n",
        "line 1: the quantity is not a number of 1 to 13 digits without leading zeros\n",
    ),
    (
        "6 10000000000000 1\n",
        "line 1: the quantity is not a number of 1 to 13 digits without leading zeros\n",
    ),
    (
        "6 1\n",
        "line 1: the grade is not a number of 1 to 13 digits without leading zeros\n",
    ),
    (
        "6 1 1\r\n",
        "line 1: the grade is not a number of 1 to 13 digits without leading zeros\n",
    ),
    (
        "6 1 1 1\n",
        "line 1: more than the three fields row, quantity and grade\n",
    ),
    (
        "6 1 1 \n",
        "line 1: more than the three fields row, quantity and grade\n",
    ),
    (
        "0 1 1\n",
        "refusal 40 at item 1: its row, quantity or grade is out of range, or it passes 10^12 kg\n",
    ),
    (
        "6 1 1\n7 1 1\n0 1 1\n",
        "refusal 40 at item 2: its row, quantity or grade is out of range, or it passes 10^12 kg\n",
    ),
    (
        "6 10000000001 1\n",
        "refusal 40 at item 1: its row, quantity or grade is out of range, or it passes 10^12 kg\n",
    ),
    (
        "6 9999999999999 1\n",
        "refusal 40 at item 1: its row, quantity or grade is out of range, or it passes 10^12 kg\n",
    ),
    (
        "6 1 0\n",
        "refusal 40 at item 1: its row, quantity or grade is out of range, or it passes 10^12 kg\n",
    ),
    (
        "6 1 6\n",
        "refusal 40 at item 1: its row, quantity or grade is out of range, or it passes 10^12 kg\n",
    ),
    (
        "6 1 1\n1 454758365 5\n",
        "refusal 40 at item 2: its row, quantity or grade is out of range, or it passes 10^12 kg\n",
    ),
    // the layout before the items
    ("7 1 1\n6 1 1", "line 2: not ended by a line feed\n"),
];

#[test]
fn small_bills(rt: HostRuntime) -> Result<(), Fail> {
    for (bill, expected) in SMALL_BILLS {
        let text = format!(in rt.alloc(); "{}", answer(bill.as_bytes()))?;
        assert!(rt; text.as_str() == *expected, "{}", *bill);
    }
    Ok(())
}

// A text so many times over, with another behind it.
fn repeated(heap: Global, times: usize, text: &str, end: &str) -> Result<String, AllocError> {
    let mut bill = String::new(heap);
    for _ in 0..times {
        bill.push_str(text)?;
    }
    bill.push_str(end)?;
    Ok(bill)
}

// So many times a line of 6 bytes, with an end behind it.
const LONG_BILLS: &[(usize, &str, &str)] = &[
    (64, "7 0 1\n", "refusal 40: more than 64 items\n"),
    (65, "", "refusal 40: more than 64 items\n"),
    (
        65,
        "6 1\n",
        "line 66: the grade is not a number of 1 to 13 digits without leading zeros\n",
    ),
    (65, "6 1 1", "line 66: not ended by a line feed\n"),
    // 65,536 bytes
    (10_921, "1 10000 1\n", "refusal 40: more than 64 items\n"),
    (10_922, "1 0 ", "line 10923: not ended by a line feed\n"),
    // 65,537 bytes
    (
        10_921,
        "1 100000 1\n",
        "the bill is longer than 65536 bytes\n",
    ),
    (10_922, "1 0 1", "the bill is longer than 65536 bytes\n"),
];

#[test]
fn long_bills(rt: HostRuntime) -> Result<(), Fail> {
    for (times, end, expected) in LONG_BILLS {
        let bill = repeated(rt.alloc(), *times, "1 0 1\n", *end)?;
        let text = format!(in rt.alloc(); "{}", answer(bill.as_bytes()))?;
        assert!(rt; text.as_str() == *expected, "{} and {}", *times, *end);
    }
    Ok(())
}

// As many items as a table may have.
#[test]
fn most_items(rt: HostRuntime) -> Result<(), Fail> {
    let bill = repeated(rt.alloc(), 64, "6 1000 2\n", "")?;
    let text = format!(in rt.alloc(); "{}", answer(bill.as_bytes()))?;
    let end =
        "\nitem 64: row 6, quantity 1000, grade 2: 571 kg\ntotal: 36544 kg\nmean grade: 2.00\n";
    assert!(rt; text.as_str().ends_with(end));
    Ok(())
}

// Lines of digits.
#[test]
fn long_lines(rt: HostRuntime) -> Result<(), Fail> {
    let cases = [
        (
            511,
            "line 1: the row is not a number of 1 to 13 digits without leading zeros\n",
        ),
        (512, "line 1: longer than 512 bytes\n"),
    ];
    for (digits, expected) in cases {
        let bill = repeated(rt.alloc(), digits, "1", "\n")?;
        let text = format!(in rt.alloc(); "{}", answer(bill.as_bytes()))?;
        assert!(rt; text.as_str() == expected, "{}", digits);
    }
    Ok(())
}
