//! A drawing as SVG. A number stands behind a space, which the forms of SVG that are used here allow.
ghost use Rattle.std.specs.Prelude.{◌≤◌, ◌^◌};

use crate::captions::{caption, counted, named};
use crate::shapes::{Arrow, Band, Carried, Drawing, End, Life, Logged, Note, Standing};
use journal::Actor;
use of_types::Octets;
use report::{write_actor, write_digits, write_number};
use std::alloc::{AllocError, Global};

/// Where the name of a view begins, where the number of an entry ends, and where the column of the log begins.
const VIEW: u128 = 8;

const NUMBER: u128 = 170;

const LOG: u128 = 182;

/// Where the first lifeline stands, how far apart two of them are, and the room behind the last one.
const LEFT: u128 = 310;

const SPACING: u128 = 210;

const RIGHT: u128 = 50;

/// How far from its lifeline an arrow turns into the row where it ends.
const KNEE: u128 = 16;

/// How far from a lifeline words stand, which is behind the knees of its arrows.
const ASIDE: u128 = 20;

/// Where the first entry stands, how far apart two entries are, and the room below the last one.
const TOP: u128 = 104;

const ROW: u128 = 22;

const BOTTOM: u128 = 40;

/// How far words stand below the middle of their row, and those on an arrow above it.
const BELOW: u128 = 4;

const ABOVE: u128 = 4;

/// After how many entries the names of the actors are written again, in a row of their own.
const NAMES: usize = 40;

/// Half of the box of a name, across and down.
const HALF_WIDTH: u128 = 17;

const HALF_HEIGHT: u128 = 9;

/// Half of the box of a note.
const HALF_NOTE: u128 = 3;

const STYLE: &[u8] = b"\" xmlns=\"http://www.w3.org/2000/svg\">
<style>
text{font:11px sans-serif;fill:#222;stroke:#fff;stroke-width:3px;stroke-linejoin:round;paint-order:stroke}
path{fill:none}.title{font-size:15px}.name,.view{font-weight:bold}.name{text-anchor:middle}.number,.before{text-anchor:end}
.number{fill:#888}.note{fill:#a0380c}.log{fill:#5b3a9c}
.up{stroke:#bbb}.down{stroke:#888;stroke-dasharray:2 6}.master{stroke:#b9a3e3;stroke-width:7}.box{fill:#fff;stroke:#bbb}
.spoken{stroke:#1f5fa8}.member{stroke:#2e7d32}.frame{stroke:#8a6d00}.unread{stroke:#555}
.kept{stroke-dasharray:7 3}.lost{stroke-dasharray:2 3;marker-end:url(#cross)}.drawn,.kept{marker-end:url(#head)}
.cross{stroke:#c00;stroke-width:2}.dot{fill:#222}.even{fill:#f3f6fb}.odd{fill:#fdf3e3}
</style>
<defs>
<marker id=\"head\" viewBox=\"0 0 8 8\" refX=\"8\" refY=\"4\" markerWidth=\"7\" markerHeight=\"7\" orient=\"auto\"><path class=\"dot\" d=\"M0 0 8 4 0 8z\"/></marker>
<marker id=\"cross\" viewBox=\"-6 -6 12 12\" markerWidth=\"12\" markerHeight=\"12\"><path class=\"cross\" d=\"M-5 -5 5 5M-5 5 5 -5\"/></marker>
</defs>
<text class=\"title\" transform=\"translate(20 26)\">";

const LEGEND: &[u8] =
    b"<g transform=\"translate(20 50)\"><path class=\"spoken\" d=\"M0 0H30\"/><text x=\"36\" y=\"4\">OpenFlow</text>
<path class=\"member\" d=\"M110 0H140\"/><text x=\"146\" y=\"4\">between controllers</text>
<path class=\"frame\" d=\"M270 0H300\"/><text x=\"306\" y=\"4\">on a link</text>
<path class=\"kept unread\" d=\"M370 0H400\"/><text x=\"406\" y=\"4\">drawn and stays</text>
<path class=\"lost unread\" d=\"M510 0H540\"/><text x=\"552\" y=\"4\">lost</text>
<path class=\"master\" d=\"M590 0H620\"/><text x=\"626\" y=\"4\">master</text>
<path class=\"down\" d=\"M680 0H710\"/><text x=\"716\" y=\"4\">down</text></g>
";

/// The text of a drawing as SVG.
pub fn svg(alloc: Global, drawing: &Drawing) -> Result<Octets, AllocError> {
    let mut svg = Octets::new(alloc);
    let width = LEFT + SPACING * u128::from(lifelines(drawing)) + RIGHT;
    write_head(&mut svg, drawing, width, row(drawing.shown) + BOTTOM)?;
    write_grid(&mut svg, drawing, width)?;
    for arrow in drawing.arrows.as_slice() {
        write_line(&mut svg, drawing, arrow)?;
    }
    write_rows(&mut svg, drawing)?;
    write_words(&mut svg, drawing)?;
    svg.append(b"</svg>\n")?;
    Ok(svg)
}

/// How many lifelines there are.
fn lifelines(drawing: &Drawing) -> u16 {
    u16::from(drawing.controllers) + u16::from(drawing.switches)
}

/// Where an actor's lifeline stands.
fn column(drawing: &Drawing, actor: Actor) -> u128
    ensures least { LEFT ≤ result }
    ensures most { result ≤ 2 ^ 20 }
{
    let number = match actor {
        Actor::Controller(c) => u128::from(c),
        Actor::Switch(s) => u128::from(drawing.controllers) + u128::from(s),
    };
    LEFT + SPACING * number
}

/// Where an entry stands. Above each entry before which the names stand is a row for them.
fn row(place: usize) -> u128
    ensures least { TOP ≤ result }
    ensures most { result ≤ 2 ^ 70 }
{
    TOP + ROW * (place as u128 + (place / NAMES) as u128)
}

/// Writes a text of a class up to its words.
fn begin_text(svg: &mut Octets, class: &[u8], x: u128, y: u128) -> Result<(), AllocError> {
    svg.append(b"<text class=\"")?;
    svg.append(class)?;
    svg.append(b"\" transform=\"translate(")?;
    write_number(svg, x)?;
    write_number(svg, y)?;
    svg.append(b")\">")
}

fn end_text(svg: &mut Octets) -> Result<(), AllocError> {
    svg.append(b"</text>\n")
}

/// Writes the beginning of a path of classes, from a point on.
fn begin_path(
    svg: &mut Octets,
    class: &[u8],
    style: &[u8],
    x: u128,
    y: u128,
) -> Result<(), AllocError> {
    svg.append(b"<path class=\"")?;
    svg.append(class)?;
    svg.append(style)?;
    svg.append(b"\" d=\"M")?;
    write_number(svg, x)?;
    write_number(svg, y)
}

/// Writes a step of a path.
fn step(svg: &mut Octets, kind: &[u8], to: u128) -> Result<(), AllocError> {
    svg.append(kind)?;
    write_number(svg, to)
}

fn end_path(svg: &mut Octets) -> Result<(), AllocError> {
    svg.append(b"\"/>\n")
}

fn colour(carried: &Carried) -> &'static [u8] {
    match carried {
        Carried::Spoken(_) => b"spoken",
        Carried::Member(_) => b"member",
        Carried::Frame { .. } => b"frame",
        Carried::Unread { .. } => b"unread",
    }
}

fn style(end: End) -> &'static [u8] {
    match end {
        End::Drawn => b" drawn",
        End::Kept => b" kept",
        End::Lost => b" lost",
    }
}

fn look(standing: Standing) -> &'static [u8] {
    match standing {
        Standing::Up => b"up",
        Standing::Down => b"down",
        Standing::Master => b"master",
    }
}

/// Writes the line of an arrow: from its post into the row where it ends, and along that to its receiver.
fn write_line(svg: &mut Octets, drawing: &Drawing, arrow: &Arrow) -> Result<(), AllocError> {
    let (from, to) = (
        column(drawing, arrow.sender),
        column(drawing, arrow.receiver),
    );
    let knee = if from < to { from + KNEE } else { from - KNEE };
    begin_path(
        svg,
        colour(&arrow.carried),
        style(arrow.end),
        from,
        row(arrow.posted),
    )?;
    step(svg, b"L", knee)?;
    write_number(svg, row(arrow.ended))?;
    step(svg, b"H", to)?;
    end_path(svg)
}

/// Writes what an arrow carries, on its line and before its end.
fn write_caption(svg: &mut Octets, drawing: &Drawing, arrow: &Arrow) -> Result<(), AllocError> {
    let (from, to) = (
        column(drawing, arrow.sender),
        column(drawing, arrow.receiver),
    );
    let y = row(arrow.ended) - ABOVE;
    if from < to {
        begin_text(svg, b"before", to - ASIDE, y)?;
    } else {
        begin_text(svg, b"behind", to + ASIDE, y)?;
    }
    caption(svg, &arrow.carried)?;
    end_text(svg)
}

fn write_note(svg: &mut Octets, drawing: &Drawing, note: &Note) -> Result<(), AllocError> {
    let (x, y) = (column(drawing, note.actor), row(note.place));
    begin_path(svg, b"dot", b"", x - HALF_NOTE, y - HALF_NOTE)?;
    svg.append(b"h6v6h-6z")?;
    end_path(svg)?;
    begin_text(svg, b"note", x + ASIDE, y + BELOW)?;
    svg.append(note.text.as_slice())?;
    end_text(svg)
}

/// Writes into the column of the log.
fn write_logged(svg: &mut Octets, logged: &Logged) -> Result<(), AllocError> {
    begin_text(svg, b"log", LOG, row(logged.place) + BELOW)?;
    svg.append(logged.text.as_slice())?;
    end_text(svg)
}

/// Writes the name of an actor into a box on its lifeline, in the row above an entry.
fn write_name(
    svg: &mut Octets,
    drawing: &Drawing,
    actor: Actor,
    place: usize,
) -> Result<(), AllocError> {
    let (x, y) = (column(drawing, actor), row(place) - ROW);
    begin_path(svg, b"box", b"", x - HALF_WIDTH, y - HALF_HEIGHT)?;
    svg.append(b"h34v18h-34z")?;
    end_path(svg)?;
    begin_text(svg, b"name", x, y + BELOW)?;
    write_actor(svg, actor)?;
    end_text(svg)
}

/// Writes the names above the columns, into the row above an entry.
fn write_names(svg: &mut Octets, drawing: &Drawing, place: usize) -> Result<(), AllocError> {
    begin_text(svg, b"view", LOG, row(place) - ROW + BELOW)?;
    svg.append(b"log")?;
    end_text(svg)?;
    for number in 0..drawing.controllers {
        write_name(svg, drawing, Actor::Controller(number), place)?;
    }
    for number in 0..drawing.switches {
        write_name(svg, drawing, Actor::Switch(number), place)?;
    }
    Ok(())
}

/// Writes how many actors there are, and which entries are shown, counted from 1.
fn write_title(svg: &mut Octets, drawing: &Drawing) -> Result<(), AllocError> {
    let last = drawing.before.saturating_add(drawing.shown);
    counted(svg, drawing.controllers, b" controller", b" controllers")?;
    svg.append(b",")?;
    counted(svg, drawing.switches, b" switch", b" switches")?;
    if drawing.shown == 0 {
        svg.append(b": none of the entries, which are")?;
    } else {
        svg.append(b": entries")?;
        write_number(svg, drawing.before as u128 + 1)?;
        named(svg, b" to", last as u64)?;
        svg.append(b" of")?;
    }
    write_number(svg, drawing.entries as u64)
}

/// Writes the beginning: the size, the title and what the lines mean.
fn write_head(
    svg: &mut Octets,
    drawing: &Drawing,
    width: u128,
    height: u128,
) -> Result<(), AllocError> {
    svg.append(b"<svg width=\"")?;
    write_digits(svg, width)?;
    svg.append(b"\" height=\"")?;
    write_digits(svg, height)?;
    svg.append(STYLE)?;
    write_title(svg, drawing)?;
    end_text(svg)?;
    svg.append(LEGEND)
}

/// Writes a band down to the bottom, with its view and the controller that leads it. The next band covers what is below its beginning.
fn write_band(
    svg: &mut Octets,
    drawing: &Drawing,
    band: &Band,
    class: &[u8],
    width: u128,
) -> Result<(), AllocError> {
    let y = row(band.place) - ROW / 2;
    begin_path(svg, class, b"", 0, y)?;
    step(svg, b"H", width)?;
    step(svg, b"V", row(drawing.shown) + BOTTOM)?;
    svg.append(b"H 0z")?;
    end_path(svg)?;
    begin_text(svg, b"view", VIEW, row(band.place) + BELOW)?;
    named(svg, b"view", u64::from(band.view))?;
    svg.append(b", primary")?;
    let primary = band.view % u32::from(drawing.controllers).max(1);
    write_actor(svg, Actor::Controller(primary as u8))?;
    end_text(svg)
}

/// Writes a part of a lifeline. The first one begins at the names.
fn write_life(svg: &mut Octets, drawing: &Drawing, life: &Life) -> Result<(), AllocError> {
    let top = if life.from == 0 {
        TOP - ROW
    } else {
        row(life.from)
    };
    begin_path(
        svg,
        look(life.standing),
        b"",
        column(drawing, life.actor),
        top,
    )?;
    step(svg, b"V", row(life.to))?;
    end_path(svg)
}

/// Writes the bands and the lifelines.
fn write_grid(svg: &mut Octets, drawing: &Drawing, width: u128) -> Result<(), AllocError> {
    for (index, band) in drawing.bands.iter().enumerate() {
        let class: &[u8] = if index % 2 == 0 { b"even" } else { b"odd" };
        write_band(svg, drawing, band, class, width)?;
    }
    for life in &drawing.lives {
        write_life(svg, drawing, life)?;
    }
    Ok(())
}

/// Writes the number of each entry, counted from 1, what it tells of the log, and now and then the names above the columns.
fn write_rows(svg: &mut Octets, drawing: &Drawing) -> Result<(), AllocError> {
    for place in 0..drawing.shown {
        begin_text(svg, b"number", NUMBER, row(place) + BELOW)?;
        write_number(svg, drawing.before as u128 + place as u128 + 1)?;
        end_text(svg)?;
        if place % NAMES == 0 {
            write_names(svg, drawing, place)?;
        }
    }
    for logged in &drawing.log {
        write_logged(svg, logged)?;
    }
    Ok(())
}

/// Writes the words beside arrows and lifelines.
fn write_words(svg: &mut Octets, drawing: &Drawing) -> Result<(), AllocError> {
    for arrow in drawing.arrows.as_slice() {
        write_caption(svg, drawing, arrow)?;
    }
    for note in &drawing.notes {
        write_note(svg, drawing, note)?;
    }
    Ok(())
}
