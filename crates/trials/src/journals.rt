use journal::answer::answer;
use journal::serve::serve;
use std::test::Fail;

#[test]
fn journals_are_answered(rt: HostRuntime) -> Result<(), Fail> {
    let heap = rt.alloc();
    assert_eq!(rt; answer(heap, b"")?.as_slice() == b"".as_slice(), true);
    assert_eq!(rt;
        answer(heap, b"# nothing\n\n#")?.as_slice() == b"".as_slice(),
        true
    );
    assert_eq!(rt;
        answer(heap, b"text\n.\n")?.as_slice() == b"text: fault 1 line 0 layer 1\n".as_slice(),
        true
    );
    assert_eq!(rt;
        answer(heap, b"text \nopen")?.as_slice()
            == b"text : not a call\nopen: not a call\n".as_slice(),
        true
    );
    let two = answer(
        heap,
        b"text\nINP     1     0\nRUN\nFUN     2\nLIT     0\nPUT     0\n.\nsettle\n",
    )?;
    assert_eq!(rt;
        two.as_slice() == b"text: accepted 1 functions 2 steps\nsettle: not a call\n".as_slice(),
        true
    );
    let unended = answer(heap, b"text\nINP     1     0\nRUN")?;
    assert_eq!(rt;
        unended.as_slice() == b"text: fault 1 line 2 layer 1\n".as_slice(),
        true
    );
    Ok(())
}

#[test]
fn a_journal_is_served(rt: HostRuntime) -> Result<(), Fail> {
    let heap = rt.alloc();
    let mut input = b"text\n.\nsettle\n".as_slice();
    let mut output = Vec::from_slice(heap, b"before\n")?;
    assert_eq!(rt; serve(heap, &mut input, &mut output).is_ok(), true);
    assert_eq!(rt; input.is_empty(), true);
    assert_eq!(rt;
        output.as_slice()
            == b"before\ntext: fault 1 line 0 layer 1\nsettle: not a call\n".as_slice(),
        true
    );
    Ok(())
}
