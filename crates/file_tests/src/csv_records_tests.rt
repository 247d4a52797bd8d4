//! Records of a file of comma-separated values.
use csv_records::*;

// Whether there is a next record, with this second field and so many fields.
fn next_has(rows: &mut Rows, second: &str, fields: usize) -> bool {
    let found = rows.advance() == Ok(true);
    let of_three = rows.three_fields().is_some() == (fields == 3);
    let of_four = rows.four_fields().is_some() == (fields == 4);
    found & of_three & of_four & (rows.field(1) == Some(second.as_bytes()))
}

// The second field of each record, and how many fields it has.
const RECORDS: &[(&str, usize)] = &[("b", 2), ("d,\"e\"", 3), ("h", 4)];

// Whether three records follow, with these second fields and so many fields, and no more, however often one asks.
fn three_records_follow(rows: &mut Rows) -> bool {
    let mut follow = true;
    for record in RECORDS {
        let (second, fields) = *record;
        follow &= next_has(rows, second, fields);
    }
    let no_more = rows.advance() == Ok(false);
    let none_again = rows.advance() == Ok(false);
    follow & no_more & none_again
}

#[test]
fn records_in_order(rt: HostRuntime) {
    let mut rows = Rows::new(rt.alloc(), b"a,b\r\n\r\nc,\"d,\"\"e\"\"\",f\ng,h,i,j");
    let follow = three_records_follow(&mut rows);
    assert!(rt; follow);
}
