// Numbers at the end of a run that are greater than those of any recorded case.
use bt_core::items::Items;
use bt_core::map::{MapDecl, MapKind};
use json_out::ends::{end_lines, json_stats_line};
use map_printer::printing::print_end;
use std::test::Fail;

const WARNINGS: &[u8] = b"WARNING: 7 updates lost in @\n\
WARNING: 18446744073709551615 updates lost in @none\n";

const LINES: &[u8] = b"{\"count\":7,\"map\":\"@\",\"type\":\"lost_updates\"}\n\
{\"count\":18446744073709551615,\"map\":\"@none\",\"type\":\"lost_updates\"}\n";

#[test]
fn the_end_tells_great_numbers(rt: HostRuntime) -> Result<(), Fail> {
    let alloc = rt.alloc();
    let maps = [
        MapDecl {
            name: Items::from_slice(alloc, b"@")?,
            kind: MapKind::Ints,
            key_shape: Items::new(alloc),
        },
        MapDecl {
            name: Items::from_slice(alloc, b"@none")?,
            kind: MapKind::Ints,
            key_shape: Items::new(alloc),
        },
    ];
    let rows = [Items::new(alloc), Items::new(alloc)];
    let lost = [7, u64::MAX];
    assert!(rt; print_end(alloc, &maps, &rows, &lost)?.as_slice() == WARNINGS);
    assert!(rt; end_lines(alloc, &maps, &rows, &lost)?.as_slice() == LINES);
    let stats = b"{\"instructions\":20483,\"type\":\"stats\"}\n".as_slice();
    assert!(rt; json_stats_line(alloc, 20_483)?.as_slice() == stats);
    Ok(())
}
