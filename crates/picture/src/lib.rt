// The picture: an SVG of 800 by 400 with the offset over time, filtered and smoothed, each with a band of two standard deviations either side, and
// the checks by what became of them.
#![tactic(auto)]

mod plot;

ghost use Rattle.std.specs.Prelude.{◌<◌, ◌≤◌};

use crate::plot::{BOTTOM, Frame, LEFT, RIGHT, TOP};
use rows::{Check, Estimate, Run};
use std::io::Write;

fn say<W: Write>(out: &mut W, text: &[u8]) {
    let _ = out.write_all(text);
}

// A number with two decimals, and a blank before it.
fn number<W: Write>(out: &mut W, x: f64) {
    let mut text = [b' '; 10];
    cells::number(&mut text, 0, 10, x, 2);
    say(out, &text);
}

// A step of a path: its letter and a point.
fn to<W: Write>(out: &mut W, letter: u8, x: f64, y: f64) {
    let mut text = [b' '; 22];
    text[0] = letter;
    cells::number(&mut text, 1, 10, x, 2);
    cells::number(&mut text, 11, 10, y, 2);
    text[21] = b'\n';
    say(out, &text);
}

// ---- the bands and the curves

// Whether the estimate of period t can be drawn.
fn drawn(run: Run, t: usize, estimate: Estimate) -> bool
    requires { t < 4096 }
{
    float::is_finite(plot::edge(run, t, estimate, 2.0))
}

// Whether period t is drawn, and the one before it.
fn joined(run: Run, t: usize, estimate: Estimate) -> bool
    requires { t < 4096 }
{
    0 < t && drawn(run, t - 1, estimate) && drawn(run, t, estimate)
}

// From period t - 1 to period t: the upper edge forwards, the lower one back.
fn band_piece<W: Write>(out: &mut W, f: Frame, run: Run, t: usize, estimate: Estimate)
    requires { t < 4096 }
{
    if 0 < t {
        let a = plot::x_of(f, run.time(t - 1));
        let b = plot::x_of(f, run.time(t));
        to(
            out,
            b'M',
            a,
            plot::y_of(f, plot::edge(run, t - 1, estimate, 2.0)),
        );
        to(
            out,
            b'L',
            b,
            plot::y_of(f, plot::edge(run, t, estimate, 2.0)),
        );
        to(
            out,
            b'L',
            b,
            plot::y_of(f, plot::edge(run, t, estimate, -2.0)),
        );
        to(
            out,
            b'L',
            a,
            plot::y_of(f, plot::edge(run, t - 1, estimate, -2.0)),
        );
        say(out, b"Z\n");
    }
}

// Period t's point, joined to the one before it where that is drawn.
fn curve_piece<W: Write>(out: &mut W, f: Frame, run: Run, t: usize, estimate: Estimate)
    requires { t < 4096 }
{
    let letter = if joined(run, t, estimate) { b'L' } else { b'M' };
    to(
        out,
        letter,
        plot::x_of(f, run.time(t)),
        plot::y_of(f, plot::edge(run, t, estimate, 0.0)),
    );
}

fn band<W: Write>(out: &mut W, f: Frame, run: Run, estimate: Estimate) {
    for t in 0..run.n {
        if joined(run, t, estimate) {
            band_piece(out, f, run, t, estimate);
        }
    }
}

fn curve<W: Write>(out: &mut W, f: Frame, run: Run, estimate: Estimate) {
    for t in 0..run.n {
        if drawn(run, t, estimate) {
            curve_piece(out, f, run, t, estimate);
        }
    }
}

fn estimates<W: Write>(out: &mut W, f: Frame, run: Run) {
    say(
        out,
        b"<g clip-path=\"url(#plot)\">\n<path fill=\"#6baed6\" fill-opacity=\".35\" d=\"",
    );
    band(out, f, run, Estimate::Filtered);
    say(
        out,
        b"\"/>\n<path fill=\"#fd8d3c\" fill-opacity=\".35\" d=\"",
    );
    band(out, f, run, Estimate::Smoothed);
    say(
        out,
        b"\"/>\n<path fill=\"none\" stroke=\"#08519c\" stroke-width=\"1.6\" d=\"",
    );
    curve(out, f, run, Estimate::Filtered);
    say(
        out,
        b"\"/>\n<path fill=\"none\" stroke=\"#d94801\" stroke-width=\"1.6\" d=\"",
    );
    curve(out, f, run, Estimate::Smoothed);
    say(out, b"\"/>\n</g>\n");
}

// ---- the checks

// Its size and colour are said by `head`.
fn circle<W: Write>(out: &mut W, head: &[u8], x: f64, y: f64) {
    say(out, head);
    number(out, x);
    say(out, b"\" cy=\"");
    number(out, y);
    say(out, b"\"/>\n");
}

fn taken<W: Write>(out: &mut W, x: f64, y: f64) {
    circle(out, b"<circle r=\"2.6\" fill=\"#222\" cx=\"", x, y);
}

fn first_news<W: Write>(out: &mut W, x: f64, y: f64) {
    circle(
        out,
        b"<circle r=\"4.5\" fill=\"#fff\" stroke=\"#222\" stroke-width=\"1.6\" cx=\"",
        x,
        y,
    );
}

fn passed_over<W: Write>(out: &mut W, x: f64, y: f64) {
    say(out, b"<path stroke=\"#c0002a\" stroke-width=\"1.6\" d=\"\n");
    to(out, b'M', x - 4.5, y - 4.5);
    to(out, b'L', x + 4.5, y + 4.5);
    to(out, b'M', x - 4.5, y + 4.5);
    to(out, b'L', x + 4.5, y - 4.5);
    say(out, b"\"/>\n");
}

// Passed over too, for the one cause that asks for a look at the settings: the cross in a ring.
fn doubtful<W: Write>(out: &mut W, x: f64, y: f64) {
    passed_over(out, x, y);
    circle(
        out,
        b"<circle r=\"7.5\" fill=\"none\" stroke=\"#c0002a\" stroke-width=\"1.6\" cx=\"",
        x,
        y,
    );
}

fn mark<W: Write>(out: &mut W, check: Check, x: f64, y: f64) {
    match check {
        Check::Missing => {}
        Check::Taken => taken(out, x, y),
        Check::FirstNews => first_news(out, x, y),
        Check::AddsNothing | Check::OnlyRounding => passed_over(out, x, y),
        Check::Doubtful => doubtful(out, x, y),
    }
}

// The checks of the first input, or of the second.
fn marks<W: Write>(out: &mut W, f: Frame, run: Run, input: usize)
    requires { input < 2 }
{
    for t in 0..run.n {
        mark(
            out,
            run.check(2 * t + input),
            plot::x_of(f, run.time(t)),
            plot::y_of(f, run.reading(2 * t + input)),
        );
    }
}

fn is_gap(run: Run, t: usize) -> bool
    requires { t < 4096 }
{
    run.check(2 * t) == Check::Missing && run.check(2 * t + 1) == Check::Missing
}

// A tick on the time axis for each period with no check.
fn gaps<W: Write>(out: &mut W, f: Frame, run: Run) {
    say(out, b"<path stroke=\"#888\" d=\"\n");
    for t in 0..run.n {
        if is_gap(run, t) {
            let x = plot::x_of(f, run.time(t));
            to(out, b'M', x, BOTTOM);
            to(out, b'L', x, BOTTOM - 6.0);
        }
    }
    say(out, b"\"/>\n");
}

// ---- the axes

// What an axis counts in: so many seconds, or microseconds, and what that is called.
#[derive(Clone, Copy)]
struct Unit {
    size: f64,
    name: &'static [u8],
}

impl Unit {
    fn of(size: f64, name: &'static [u8]) -> Unit {
        Unit { size, name }
    }
}

fn time_unit(last: f64) -> Unit {
    if last < 600.0 {
        Unit::of(1.0, b"seconds")
    } else if last < 10800.0 {
        Unit::of(60.0, b"minutes")
    } else if last < 345600.0 {
        Unit::of(3600.0, b"hours")
    } else if last < 94672800.0 {
        Unit::of(86400.0, b"days")
    } else {
        Unit::of(31557600.0, b"years")
    }
}

// The offset axis: microseconds, or thousands or millions of them where their numbers would be long.
fn offset_unit(f: Frame) -> Unit {
    let most = if -f.lo > f.hi { -f.lo } else { f.hi };
    if most < 100000.0 {
        Unit::of(1.0, b"microseconds")
    } else if most < 100000000.0 {
        Unit::of(1000.0, b"milliseconds")
    } else {
        Unit::of(1000000.0, b"seconds")
    }
}

fn line<W: Write>(out: &mut W, x: f64, y: f64, to_x: f64, to_y: f64) {
    say(out, b"<path stroke=\"#ddd\" d=\"\n");
    to(out, b'M', x, y);
    to(out, b'L', to_x, to_y);
    say(out, b"\"/>\n");
}

fn label<W: Write>(out: &mut W, x: f64, y: f64, value: f64, decimals: u8)
    requires { decimals ≤ 6 }
{
    let mut text = [b' '; 14];
    cells::number(&mut text, 0, 14, value, decimals);
    say(out, b"<text x=\"");
    number(out, x);
    say(out, b"\" y=\"");
    number(out, y);
    say(out, b"\">");
    say(out, &text);
    say(out, b"</text>\n");
}

// The numbers are in the axis's unit; `unit` is how many of the frame's it has.
fn offset_tick<W: Write>(out: &mut W, f: Frame, value: f64, unit: f64, step: f64) {
    let offset = value * unit;
    if offset >= f.lo {
        if offset <= f.hi {
            let y = plot::y_of(f, offset);
            line(out, LEFT, y, RIGHT, y);
            label(out, LEFT - 6.0, y + 4.0, value, plot::decimals(step));
        }
    }
}

fn time_tick<W: Write>(out: &mut W, f: Frame, value: f64, unit: f64, step: f64) {
    let time = value * unit;
    if time >= 0.0 {
        if time <= f.last {
            let x = plot::x_of(f, time);
            line(out, x, TOP, x, BOTTOM);
            label(out, x, BOTTOM + 17.0, value, plot::decimals(step));
        }
    }
}

fn offset_axis<W: Write>(out: &mut W, f: Frame) {
    let u = offset_unit(f);
    let unit = u.size;
    let step = plot::step((f.hi - f.lo) / unit / 9.0);
    let from = plot::rounded(f.lo / unit / step);
    say(out, b"<g text-anchor=\"end\">\n");
    for i in 0..20 {
        offset_tick(out, f, (from + plot::double(i)) * step, unit, step);
    }
    say(
        out,
        b"</g>\n<text transform=\"translate(14 197) rotate(-90)\" text-anchor=\"middle\">offset, ",
    );
    say(out, u.name);
    say(out, b"</text>\n");
}

fn time_axis<W: Write>(out: &mut W, f: Frame) {
    let u = time_unit(f.last);
    let unit = u.size;
    let step = plot::step(f.last / unit / 10.0);
    say(out, b"<g text-anchor=\"middle\">\n");
    for i in 0..20 {
        time_tick(out, f, plot::double(i) * step, unit, step);
    }
    say(
        out,
        b"</g>\n<text x=\"430\" y=\"384\" text-anchor=\"middle\">time, ",
    );
    say(out, u.name);
    say(out, b"</text>\n");
}

// ---- the legend: two curves above, the checks below

fn legend_curves<W: Write>(out: &mut W) {
    say(
        out,
        b"<path fill=\"#6baed6\" fill-opacity=\".35\" d=\"M72 8h30v12h-30Z\"/><path stroke=\"#08519c\" stroke-width=\"1.6\" d=\"M72 14h30\"/>
<text x=\"108\" y=\"18\">filtered, 2 standard deviations either side</text>
<path fill=\"#fd8d3c\" fill-opacity=\".35\" d=\"M412 8h30v12h-30Z\"/><path stroke=\"#d94801\" stroke-width=\"1.6\" d=\"M412 14h30\"/>
<text x=\"448\" y=\"18\">smoothed, 2 standard deviations either side</text>
",
    );
}

fn legend_checks<W: Write>(out: &mut W) {
    taken(out, 80.0, 34.0);
    say(out, b"<text x=\"90\" y=\"38\">check taken</text>\n");
    first_news(out, 190.0, 34.0);
    say(
        out,
        b"<text x=\"200\" y=\"38\">taken as first news</text>\n",
    );
    passed_over(out, 348.0, 34.0);
    say(
        out,
        b"<text x=\"358\" y=\"38\">passed over: no news</text>\n",
    );
    doubtful(out, 508.0, 34.0);
    say(
        out,
        b"<text x=\"521\" y=\"38\">passed over: doubtful</text>\n",
    );
    say(
        out,
        b"<path stroke=\"#888\" d=\"M672 37v-6\"/><text x=\"680\" y=\"38\">no check</text>\n",
    );
}

pub fn draw<W: Write>(out: &mut W, run: Run) {
    let f = plot::around(run);
    say(
        out,
        b"<svg xmlns=\"http://www.w3.org/2000/svg\" width=\"800\" height=\"400\" viewBox=\"0 0 800 400\" font-family=\"sans-serif\" font-size=\"12\">
<title>A crystal's offset from radio time</title>
<clipPath id=\"plot\"><path d=\"M72 52H788V342H72Z\"/></clipPath>
<path fill=\"#fff\" d=\"M0 0H800V400H0Z\"/>
",
    );
    offset_axis(out, f);
    time_axis(out, f);
    estimates(out, f, run);
    gaps(out, f, run);
    marks(out, f, run, 0);
    marks(out, f, run, 1);
    say(
        out,
        b"<path fill=\"none\" stroke=\"#444\" d=\"M72 52H788V342H72Z\"/>\n",
    );
    legend_curves(out);
    legend_checks(out);
    say(out, b"</svg>\n");
}
