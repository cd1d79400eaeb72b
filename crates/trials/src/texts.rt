use kinds::fault::Refusal;
use program::check::check;
use program::program::Program;
use std::alloc::{AllocError, Global};
use std::test::Fail;

// What is told of a text: number, line and layer.
#[derive(Clone, Copy, PartialEq, Eq, Debug)]
struct Fault(u8, usize, u8);

const PRICE_TIMES_COUNT: &[u8] =
    b"INP     2     0\nRUN     0     1\nFUN     2     2     2\nGET     0     1     1\nFUN     2     1     2\nGET     1     2     0\nFUN     2     1     1\nMUL     0     1\nPUT     2\n";

const LIST_SUM: &[u8] =
    b"INP     2     3\nRUN     2\nFUN     2     3\nCAS     0     1     2\nFUN     2\nLIT     0\nPUT     0\nFUN     2     2     3\nNEW     0     1\nGET     0     3     2\nFUN     2     1     2\nGET     1     4     0\nFUN     2     1     1\nADD     0     1\nPUT     2\n";

const START: &[u8] = b"INP     1     0\nRUN\n";

// A whole function, and the head of one behind the start.
const FUNCTION: &[u8] = b"FUN     2\nLIT     0\nPUT     0\n";

const START_AND_HEAD: &[u8] = b"INP     1     0\nRUN\nFUN     2\n";

// Nothing where the text is accepted.
fn fault_of(heap: Global, text: &[u8]) -> Result<Option<Fault>, AllocError> {
    let mut place = Program::smallest(heap)?;
    match check(heap, text, &mut place) {
        Ok(()) => Ok(None),
        Err(Refusal::Fault(fault)) => Ok(Some(Fault(fault.number(), fault.line(), fault.layer()))),
        Err(Refusal::Memory) => Err(AllocError),
    }
}

// A text and what is told of it.
#[derive(Clone, Copy)]
struct Case {
    text: &'static [u8],
    fault: Option<Fault>,
}

// The first of the cases that is told otherwise.
fn first_wrong(heap: Global, cases: &[Case]) -> Result<Option<usize>, AllocError> {
    for (i, case) in cases.iter().enumerate() {
        if fault_of(heap, case.text)? != case.fault {
            return Ok(Some(i));
        }
    }
    Ok(None)
}

// A text with one part repeated.
fn repeated(
    heap: Global,
    front: &[u8],
    part: &[u8],
    times: usize,
    back: &[u8],
) -> Result<Vec<u8>, AllocError> {
    let mut text = Vec::from_slice(heap, front)?;
    text.extend_from_slice(part.repeat(heap, times)?.as_slice())?;
    text.extend_from_slice(back)?;
    Ok(text)
}

#[test]
fn texts_are_accepted(rt: HostRuntime) -> Result<(), Fail> {
    let cases = [
        Case {
            text: PRICE_TIMES_COUNT,
            fault: None,
        },
        Case {
            text: LIST_SUM,
            fault: None,
        },
        Case {
            text: b"INP     1     0\nRUN\nFUN     2\nLIT     0\nPUT     0\n",
            fault: None,
        },
        Case {
            text: b"INP     0   256\nRUN   255\nFUN     3     3\nNIL\n",
            fault: None,
        },
        Case {
            text: b"INP     1     0\nRUN\nFUN     2\nLIT-99999\nLIT999999\nPUT     1\n",
            fault: None,
        },
    ];
    assert_eq!(rt; first_wrong(rt.alloc(), &cases)?, None);
    Ok(())
}

#[test]
fn the_length_of_a_text_is_told(rt: HostRuntime) -> Result<(), Fail> {
    let heap = rt.alloc();
    assert_eq!(rt; fault_of(heap, b"")?, Some(Fault(1, 0, 1)));
    let longest = repeated(heap, b"", b"NIL\n", 16384, b"")?;
    assert_eq!(rt; longest.len(), 65536);
    assert_eq!(rt; fault_of(heap, longest.as_slice())?, Some(Fault(4, 1, 2)));
    let longer = repeated(heap, b"", b"NIL\n", 16384, b"\n")?;
    assert_eq!(rt; longer.len(), 65537);
    assert_eq!(rt; fault_of(heap, longer.as_slice())?, Some(Fault(1, 0, 1)));
    Ok(())
}

#[test]
fn lengths_of_lines_are_told(rt: HostRuntime) -> Result<(), Fail> {
    let cases = [
        Case {
            text: b"INP     1     0\nRUN\nFUN     2\nLIT     0\nPUT     0",
            fault: Some(Fault(1, 5, 1)),
        },
        Case {
            text: b"INP     1     0\nRU\n",
            fault: Some(Fault(1, 2, 1)),
        },
        Case {
            text: b"INP     1    0\nRUN\n",
            fault: Some(Fault(1, 1, 1)),
        },
        Case {
            text: b"INP     1     0\nRUN     0     0     0     0     0     0     0     0     0     0\n",
            fault: Some(Fault(1, 2, 1)),
        },
    ];
    assert_eq!(rt; first_wrong(rt.alloc(), &cases)?, None);
    Ok(())
}

#[test]
fn words_and_fields_are_told(rt: HostRuntime) -> Result<(), Fail> {
    let cases = [
        Case {
            text: b"INP     1     0\nRUX\n",
            fault: Some(Fault(2, 2, 1)),
        },
        Case {
            text: b"inp     1     0\n",
            fault: Some(Fault(2, 1, 1)),
        },
        Case {
            text: b"INP     1    -0\n",
            fault: Some(Fault(3, 1, 1)),
        },
        Case {
            text: b"INP     1    00\n",
            fault: Some(Fault(3, 1, 1)),
        },
        Case {
            text: b"INP    01     0\n",
            fault: Some(Fault(3, 1, 1)),
        },
        Case {
            text: b"INP     1      \n",
            fault: Some(Fault(3, 1, 1)),
        },
        Case {
            text: b"INP     1    +1\n",
            fault: Some(Fault(3, 1, 1)),
        },
        Case {
            text: b"INP     1     -\n",
            fault: Some(Fault(3, 1, 1)),
        },
        Case {
            text: b"INP     11    0\n",
            fault: Some(Fault(3, 1, 1)),
        },
        // two faults on one line, and a line of wrong length with an unknown word
        Case {
            text: b"INX     1    -0\n",
            fault: Some(Fault(2, 1, 1)),
        },
        Case {
            text: b"INX     1   -0\n",
            fault: Some(Fault(1, 1, 1)),
        },
    ];
    assert_eq!(rt; first_wrong(rt.alloc(), &cases)?, None);
    Ok(())
}

#[test]
fn positions_and_counts_are_told(rt: HostRuntime) -> Result<(), Fail> {
    let cases = [
        Case {
            text: START,
            fault: Some(Fault(4, 2, 2)),
        },
        Case {
            text: b"INP     1     0\n",
            fault: Some(Fault(4, 1, 2)),
        },
        Case {
            text: b"RUN\n",
            fault: Some(Fault(4, 1, 2)),
        },
        Case {
            text: b"INP     1     0\nRUN\nLIT     0\nPUT     0\n",
            fault: Some(Fault(4, 3, 2)),
        },
        Case {
            text: b"INP     1     0\nRUN\nFUN     2\nLIT     0\n",
            fault: Some(Fault(4, 4, 2)),
        },
        Case {
            text: b"INP     1     0\nRUN\nFUN     2\nLIT     0\nPUT     0\nPUT     0\n",
            fault: Some(Fault(4, 6, 2)),
        },
        Case {
            text: b"INP     1     0\nRUN\nFUN     2\nLIT     0     1\nPUT     0\n",
            fault: Some(Fault(5, 4, 2)),
        },
        Case {
            text: b"INP     1\nRUN\nFUN     2\nLIT     0\nPUT     0\n",
            fault: Some(Fault(5, 1, 2)),
        },
        Case {
            text: b"INP     1     0\nRUN\nFUN     2\nLIT     0\nGET     0     0     0     0     0     0     0     0\n",
            fault: Some(Fault(5, 5, 2)),
        },
    ];
    assert_eq!(rt; first_wrong(rt.alloc(), &cases)?, None);
    Ok(())
}

#[test]
fn ranges_are_told(rt: HostRuntime) -> Result<(), Fail> {
    let cases = [
        Case {
            text: b"INP     0     0\nRUN\nFUN     2\nLIT     0\nPUT     0\n",
            fault: Some(Fault(6, 1, 2)),
        },
        Case {
            text: b"INP   200    57\nRUN\nFUN     2\nLIT     0\nPUT     0\n",
            fault: Some(Fault(6, 1, 2)),
        },
        Case {
            text: b"INP    -1     2\nRUN\nFUN     2\nLIT     0\nPUT     0\n",
            fault: Some(Fault(6, 1, 2)),
        },
        Case {
            text: b"INP     1     0\nRUN\nFUN     1\nLIT     0\nPUT     0\n",
            fault: Some(Fault(6, 3, 2)),
        },
        Case {
            text: b"INP     1     0\nRUN\nFUN     2     4\nLIT     0\nPUT     1\n",
            fault: Some(Fault(6, 3, 2)),
        },
    ];
    assert_eq!(rt; first_wrong(rt.alloc(), &cases)?, None);
    Ok(())
}

#[test]
fn limits_are_told(rt: HostRuntime) -> Result<(), Fail> {
    let heap = rt.alloc();
    let full = repeated(heap, START_AND_HEAD, b"LIT     0\n", 16, b"PUT     0\n")?;
    assert_eq!(rt; fault_of(heap, full.as_slice())?, None);
    let register = repeated(heap, START_AND_HEAD, b"LIT     0\n", 17, b"PUT     0\n")?;
    assert_eq!(rt; fault_of(heap, register.as_slice())?, Some(Fault(6, 20, 2)));
    let many = repeated(heap, START, FUNCTION, 64, b"")?;
    assert_eq!(rt; fault_of(heap, many.as_slice())?, None);
    let function = repeated(heap, START, FUNCTION, 65, b"")?;
    assert_eq!(rt;
        fault_of(heap, function.as_slice())?,
        Some(Fault(6, 195, 2))
    );
    Ok(())
}

#[test]
fn the_last_step_is_told(rt: HostRuntime) -> Result<(), Fail> {
    let heap = rt.alloc();
    let block = repeated(heap, b"FUN     2\n", b"LIT     0\n", 15, b"PUT     0\n")?;
    let most = repeated(heap, START, block.as_slice(), 32, b"")?;
    assert_eq!(rt; fault_of(heap, most.as_slice())?, None);
    let more = repeated(heap, START, block.as_slice(), 32, FUNCTION)?;
    assert_eq!(rt; fault_of(heap, more.as_slice())?, Some(Fault(6, 548, 2)));
    Ok(())
}

#[test]
fn names_are_told(rt: HostRuntime) -> Result<(), Fail> {
    let cases = [
        Case {
            text: b"INP     1     0\nRUN     1\nFUN     2     2\nLIT     0\nPUT     1\n",
            fault: Some(Fault(7, 2, 3)),
        },
        Case {
            text: b"INP     1     0\nRUN\nFUN     2\nLIT     0\nPUT     1\n",
            fault: Some(Fault(7, 5, 3)),
        },
        Case {
            text: b"INP     1     0\nRUN\nFUN     2\nLIT     0\nPUT    -1\n",
            fault: Some(Fault(7, 5, 3)),
        },
        Case {
            text: b"INP     1     0\nRUN     0\nFUN     2     2\nGET     0     1\n",
            fault: Some(Fault(7, 4, 3)),
        },
        // a register that is not there and another of the wrong kind, in one line
        Case {
            text: b"INP     1     0\nRUN     0\nFUN     2     2\nADD     0     9\nPUT     0\n",
            fault: Some(Fault(7, 4, 3)),
        },
    ];
    assert_eq!(rt; first_wrong(rt.alloc(), &cases)?, None);
    Ok(())
}

#[test]
fn kinds_are_told(rt: HostRuntime) -> Result<(), Fail> {
    let cases = [
        Case {
            text: b"INP     1     0\nRUN     0\nFUN     2     2\nPUT     0\n",
            fault: Some(Fault(8, 4, 3)),
        },
        Case {
            text: b"INP     1     0\nRUN\nFUN     2     2\nLIT     0\nPUT     1\n",
            fault: Some(Fault(8, 2, 3)),
        },
        Case {
            text: b"INP     1     0\nRUN\nFUN     2\nNIL\n",
            fault: Some(Fault(8, 4, 3)),
        },
        Case {
            text: b"INP     1     0\nRUN\nFUN     3\nLIT     0\nPUT     0\n",
            fault: Some(Fault(8, 5, 3)),
        },
        Case {
            text: b"INP     1     1\nRUN     0     1\nFUN     3     2     3\nCON     1     0\n",
            fault: Some(Fault(8, 4, 3)),
        },
        Case {
            text: b"INP     0     1\nRUN     0\nFUN     2     3\nGET     0     1\nFUN     2     1\nPUT     0\n",
            fault: Some(Fault(8, 4, 3)),
        },
        Case {
            text: b"INP     1     0\nRUN     0\nFUN     2     2\nGET     0     1     0\nFUN     2     1\nPUT     0\n",
            fault: Some(Fault(8, 4, 3)),
        },
        // layer 1 in a later line goes before layer 3 in an earlier one
        Case {
            text: b"INP     1     0\nRUN     1\nFUN     2     2\nLIT    -0\nPUT     1\n",
            fault: Some(Fault(3, 4, 1)),
        },
    ];
    assert_eq!(rt; first_wrong(rt.alloc(), &cases)?, None);
    Ok(())
}

#[test]
fn a_refusal_leaves_the_place(rt: HostRuntime) -> Result<(), Fail> {
    let heap = rt.alloc();
    let mut place = Program::smallest(heap)?;
    assert_eq!(rt; place.functions.len(), 1);
    assert_eq!(rt; place.steps(), 2);
    assert_eq!(rt; check(heap, LIST_SUM, &mut place), Ok(()));
    assert_eq!(rt; check(heap, START, &mut place).is_err(), true);
    assert_eq!(rt; place.functions.len(), 5);
    assert_eq!(rt; place.steps(), 8);
    Ok(())
}
