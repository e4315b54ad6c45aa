use super::*;
use csv::ByteRecord;
use std::test::Fail;

#[test]
fn decimals(rt: HostRuntime) {
    for (bytes, want) in [
        (b"0".as_slice(), None),
        (b"1".as_slice(), Some(1)),
        (b"512".as_slice(), Some(512)),
        (b"513".as_slice(), None),
        (b"01".as_slice(), None),
        (b"".as_slice(), None),
        (b"+1".as_slice(), None),
        (b"1 ".as_slice(), None),
        (b"18446744073709551617".as_slice(), None),
    ] {
        assert_eq!(rt; decimal_in(bytes, 1, 512), want);
    }
    let most = b"18446744073709551615".as_slice();
    assert_eq!(rt; decimal_in(most, 0, u64::MAX), Some(u64::MAX));
}

#[test]
fn records(rt: HostRuntime) -> Result<(), Fail> {
    let mut rows = Rows::of_text(rt.alloc(), b"\xEF\xBB\xBFa,\"b\"\"c\"\r\n\r\n\"\"\n7,");
    let mut row = ByteRecord::new(rt.alloc());
    for (first, second) in [
        (b"a".as_slice(), b"b\"c".as_slice()),
        (b"".as_slice(), b"".as_slice()),
        (b"7".as_slice(), b"".as_slice()),
    ] {
        assert!(rt; rows.next(&mut row)?);
        assert!(rt; field_at(&row, 1) == first && field_at(&row, 2) == second);
    }
    assert_eq!(rt; name_at(rt.alloc(), &row, 1)?.bytes(), b"7".as_slice());
    assert_eq!(rt; number_at(&row, 1, 0, 9)?, 7);
    assert_eq!(rt; optional_at(&row, 2, 1, 9)?, None);
    assert_eq!(rt; count_at(&row, 3), Err(ColumnFault::Column(0)));
    assert!(rt; has_fields(&row, &[b"7", b""]));
    assert!(rt; !rows.next(&mut row)?);
    Ok(())
}

#[test]
fn written(rt: HostRuntime) -> Result<(), Fail> {
    let mut out = RowsWriter::new(rt.alloc());
    out.row(&[b"x", b"y", b"z"])?;
    out.field(b"a,b")?;
    out.number(10)?;
    out.optional(None)?;
    out.end()?;
    assert_eq!(rt;
        out.finish()?.as_slice(),
        b"x,y,z\n\"a,b\",10,\n".as_slice()
    );
    Ok(())
}
