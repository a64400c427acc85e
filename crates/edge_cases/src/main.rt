// Runs document 01's edges through the code that there is, and prints what it answers, a line each.
#![tactic(auto)]

use compositor_device::DeviceRegion;
use compositor_rows::Rows;
use kurbo_geometry::Rect;
use std::io;

// A region by its numbers, or the word nothing.
fn print_converted(rt: &impl Print, name: &str, answer: Option<DeviceRegion>) -> io::Result<()> {
    match answer {
        Some(region) => {
            let DeviceRegion {
                x,
                y,
                width,
                height,
            } = region;
            println!(rt; "{name} {x} {y} {width} {height}")
        }
        None => println!(rt; "{name} nothing"),
    }
}

fn print_rows(rt: &impl Print, name: &str, y0: f64, y1: f64) -> io::Result<()> {
    let rows = Rows {
        band_height: 16,
        count: 3,
    };
    let first = rows.row_of(y0);
    let last = rows.final_row(y1);
    println!(rt; "{name} {first} {last}")
}

fn main(rt: HostRuntime) -> io::Result<()> {
    let outward = Rect {
        x0: -1.5,
        y0: 2.25,
        x1: 3.5,
        y1: 4.0,
    };
    print_converted(
        &rt,
        "(-1.5, 2.25, 3.5, 4) on 8 by 8:",
        DeviceRegion::from_logical(outward, 8, 8),
    )?;
    let narrow = Rect {
        x0: 3.0,
        y0: 3.0,
        x1: 3.0,
        y1: 5.0,
    };
    print_converted(
        &rt,
        "(3, 3, 3, 5) on 8 by 8:",
        DeviceRegion::from_logical(narrow, 8, 8),
    )?;
    print_rows(&rt, "rows of y 0 to 16:", 0.0, 16.0)?;
    print_rows(
        &rt,
        "rows of y 0 to the next f64 above 16:",
        0.0,
        16.000000000000004,
    )?;
    print_rows(&rt, "rows of y 100 to 120:", 100.0, 120.0)?;
    print_rows(&rt, "rows of y -8 to -2:", -8.0, -2.0)
}
