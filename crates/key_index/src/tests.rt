// Keys of one bucket and of others, by turns.
use crate::KeyIndex;
use std::test::Fail;

#[test]
fn keys_of_one_bucket(rt: HostRuntime) -> Result<(), Fail> {
    let mut index: KeyIndex<5> = KeyIndex::new();
    for key in [7, 258, 7, 8, 7] {
        assert_eq!(rt; index.push(key), Ok(()));
    }
    assert_eq!(rt; index.push(9), Err(9));
    assert_eq!(rt; index.first(7), Some(0));
    assert_eq!(rt; index.after(0), Some(2));
    assert_eq!(rt; index.after(2), Some(4));
    assert_eq!(rt; index.after(4), None);
    assert_eq!(rt; index.first(258), Some(1));
    assert_eq!(rt; index.after(1), None);
    assert_eq!(rt; index.first(509), None);
    assert_eq!(rt; index.after(5), None);
    Ok(())
}
