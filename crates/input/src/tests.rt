use crate::arguments::strip_option;
use crate::source::Source;
use std::test::Fail;

#[test]
fn opening_example(rt: HostRuntime) -> Result<(), Fail> {
    let source = Source::of_bytes(rt.alloc(), &[1, 0, 0, 0, 0, 0, 0, 0, 9])?;
    let mut graphs = source.graphs();
    assert_eq!(rt; graphs.next(), Some([1, 0].as_slice()));
    assert_eq!(rt; graphs.next(), Some([].as_slice()));
    assert_eq!(rt; graphs.next(), None);
    Ok(())
}

#[test]
fn cut_short_ends_the_input(rt: HostRuntime) -> Result<(), Fail> {
    let source = Source::of_bytes(
        rt.alloc(),
        &[0, 0, 0, 0, 0, 0, 0, 0, 0, 1, 0, 0, 255, 255, 255, 255],
    )?;
    let mut graphs = source.graphs();
    assert_eq!(rt; graphs.next(), Some([0, 0].as_slice()));
    assert_eq!(rt; graphs.next(), Some([256, 4294967295].as_slice()));
    assert_eq!(rt; graphs.next(), None);
    Ok(())
}

#[test]
fn only_a_first_word_is_an_option(rt: HostRuntime) -> Result<(), Fail> {
    let heap = rt.alloc();
    let option = String::from_str(heap, "--status")?;
    let name = String::from_str(heap, "--statuses")?;
    let words = vec![in heap; option.clone()?, name, option]?;
    let behind = strip_option(words.as_slice(), "--status");
    assert_eq!(rt; behind.map(|words| words.len()), Some(2));
    assert_eq!(rt; strip_option(behind.unwrap_or(&[]), "--status"), None);
    assert_eq!(rt; strip_option(&[], "--status"), None);
    Ok(())
}
