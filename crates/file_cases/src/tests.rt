// The writer at the last place where a record fits, one past it, and far past it; a line as text and in a table; a network in words.
use jobs::{Entry, FileSection, Line, list_network};
use std::alloc::AllocError;
use std::test::Fail;

// A record of five bytes.
const SETTLE: Entry = Entry::Settle { budget: 258 };

#[test]
fn a_record_fits_up_to_the_end(rt: HostRuntime) -> Result<(), Fail> {
    let mut table = [7; 8];
    let Ok(end) = SETTLE.write(&mut table, 3) else {
        return Err(Fail::new("refused"));
    };
    assert_eq!(rt; end, 8);
    assert_eq!(rt; table, [7, 7, 7, 5, 0, 0, 1, 2]);
    Ok(())
}

#[test]
fn a_record_past_the_end_is_not_begun(rt: HostRuntime) -> Result<(), Fail> {
    let mut table = [7; 8];
    let Err(refusal) = SETTLE.write(&mut table, 4) else {
        return Err(Fail::new("written"));
    };
    assert_eq!(rt; refusal.number(), 12);
    assert_eq!(rt; table, [7; 8]);
    Ok(())
}

#[test]
fn an_offset_past_every_table_is_refused(rt: HostRuntime) -> Result<(), Fail> {
    let mut table = [7; 8];
    let Err(refusal) = SETTLE.write(&mut table, usize::MAX) else {
        return Err(Fail::new("written"));
    };
    assert_eq!(rt; refusal.number(), 12);
    assert_eq!(rt; table, [7; 8]);
    Ok(())
}

#[test]
fn a_line_is_made(rt: HostRuntime) -> Result<(), AllocError> {
    let text = Line::WholeTotal { misfit: -7 }.text(rt.alloc())?;
    assert!(rt; text.as_str() == "total -7\n");
    Ok(())
}

#[test]
fn a_line_is_put_at_the_beginning(rt: HostRuntime) -> Result<(), AllocError> {
    let mut table = [1; 11];
    let put = Line::WholeTotal { misfit: -7 }.write(rt.alloc(), &mut table)?;
    assert!(rt; put == Ok(9));
    assert_eq!(rt; table, *b"total -7\n\x01\x01");
    Ok(())
}

// A job of two places and one way: at most 3, no redraws and a misfit of 9.
const ONE_WAY: [u8; 22] =
    *b"\x01\x00\x02\x00\x01\x02\x00\x00\x00\x01\x00\x00\x00\x03\x00\x00\x00\x00\x00\x00\x00\x09";

#[test]
fn a_network_is_told(rt: HostRuntime) -> Result<(), AllocError> {
    let text = list_network(rt.alloc(), &FileSection::new(&ONE_WAY))?;
    assert!(rt; text.as_str() == "places 2 ways 1\nway 0 from 0 to 1 limit 3 cost 0 9\n");
    Ok(())
}
