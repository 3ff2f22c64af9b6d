//! Routes and their dangers in pictures.

use crate::tests::documents::{CHART, charted, look};
use chart_model::Key;
use chart_svg::{View, Voyage, elements_of, print_document};
use draw_list::DrawList;
use route_check::{Danger, DangerList, read_route};
use sample_rows::chart;
use std::alloc::Global;
use std::test::Fail;

static ELEMENTS: &[u8] =
    b"<path data-leg=\"1\" d=\"M10,90L30,50M9,92L29,52M11,92L31,52M11,88L31,48M9,88L29,48\" stroke=\"#ff00ff\" stroke-width=\"2\"/>
<path data-leg=\"2\" d=\"M30,50L30,0M29,52L29,2M31,52L31,2M31,48L31,-2M29,48L29,-2\" stroke=\"#ff00ff\" stroke-width=\"2\"/>
<path data-leg=\"1\" data-cell=\"AA5TEST1\" data-feature=\"7\" data-place=\"0\" d=\"M10,90L10,10L90,10L90,90ZM20,80L20,60L40,60L40,80Z\" fill-rule=\"evenodd\" fill=\"#ff00ff\" fill-opacity=\"0.15\" stroke=\"#ff00ff\"/>
<path data-leg=\"1\" data-cell=\"AA5TEST1\" data-feature=\"8\" data-place=\"1\" d=\"M50,40m-9,0a9,9,0,1,0,18,0a9,9,0,1,0,-18,0\" stroke=\"#ff00ff\"/>
<path data-leg=\"1\" data-cell=\"AA5TEST1\" data-feature=\"9\" data-place=\"0\" d=\"M10,90L10,10L90,10L90,90L10,90\" stroke=\"#ff00ff\" stroke-width=\"4\"/>
<path data-leg=\"2\" data-cell=\"AA5TEST1\" data-feature=\"8\" data-place=\"2\" d=\"\" stroke=\"#ff00ff\"/>
<path data-leg=\"2\" data-cell=\"AA5TEST2\" data-feature=\"7\" data-place=\"0\" d=\"\" stroke=\"#ff00ff\"/>
</svg>
";

/// The leg, the key, the feature's number and the place of a danger.
static DANGERS: [(u32, &[u8], u32, u64); 5] = [
    (1, b"AA5TEST1", 7, 0),
    (1, b"AA5TEST1", 8, 1),
    (1, b"AA5TEST1", 9, 0),
    (2, b"AA5TEST1", 8, 2),
    (2, b"AA5TEST2", 7, 0),
];

fn dangers(alloc: Global) -> Result<DangerList, Fail> {
    let mut dangers = DangerList::new(alloc);
    for (leg, key, rcid, place) in DANGERS.iter() {
        dangers.push(Danger {
            leg: *leg,
            key: Key::from_bytes(key).ok_or("a key")?,
            rcid: *rcid,
            place: *place,
        })?;
    }
    Ok(dangers)
}

#[test]
fn voyages(rt: HostRuntime) -> Result<(), Fail> {
    let alloc = rt.alloc();
    let cell = chart(alloc, &CHART)?;
    let drawing = DrawList::new(alloc);
    let view = View::new(0, 0, 100, 100, 100).ok_or("a view")?;
    let look = look(alloc)?;
    let route = read_route(alloc, b"box 1 2\n10 10\n30 50\n30 100\n")?;
    let dangers = dangers(alloc)?;
    let charts = [charted(&cell, drawing)];
    let voyage = Voyage {
        route: &route,
        dangers: &dangers,
    };
    let elements = elements_of(alloc, &view, &look, &charts, Some(&voyage))?;
    let document = print_document(alloc, &view, &elements)?;
    assert!(rt; document.as_slice().ends_with(ELEMENTS));
    Ok(())
}
