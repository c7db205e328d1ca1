// The panel: reads a text that describes a clock and its checks against radio time, and prints what the library makes of it, as docs/PANEL.md says.
// What goes wrong is told in one line on standard error, and then nothing else is written.
#![tactic(auto)]

ghost use Rattle.std.specs.Prelude.{◌≤◌};

use options::Options;
use rows::Run;
use sheet::answers::Sheet;
use std::env::Env;
use std::fs::Files;
use table::Shown;
use told::Told;

// The picture, where one is asked for.
fn picture<R: Env + Files>(rt: &R, svg: Option<usize>, run: Run) -> Result<(), Told> {
    if let Some(svg) = svg {
        let mut file = options::create_picture(rt, svg)?;
        picture::draw(&mut file, run);
    }
    Ok(())
}

// The estimates of a sheet that is well: the picture, where one is asked for, and the table.
fn show<R: Env + Files>(rt: &R, sheet: Sheet, y: &[f64], o: Options) -> Result<(), Told>
    requires { sheet.periods ≤ 4096 }
{
    let mut rows = [0.0; rows::NUMBERS];
    let mut kinds = [0; rows::KINDS];
    let a = estimate::estimate(sheet, y, &mut rows, &mut kinds).map_err(told::refusal)?;
    let run = Run {
        n: sheet.periods,
        period: sheet.settings.period,
        y,
        kinds: &kinds,
        rows: &rows,
    };
    picture(rt, o.svg, run)?;
    table::print(
        Shown {
            inputs: sheet.settings.noise.inputs(),
            smooth: o.smooth,
            table: o.table,
        },
        0,
        run,
    );
    table::totals(a, o.table);
    Ok(())
}

fn run<R: Env + Files>(rt: &R) -> Result<(), Told> {
    let o = options::given(rt)?;
    // One stretch of a run is for the other program, power_cycle: tools/panel chooses.
    if o.is_stretch() {
        return Err(told::wrong_arguments());
    }
    let mut space = [0; options::SPACE];
    let text = options::text(rt, o.sheet, &mut space)?;
    let mut y = [0.0; rows::READINGS];
    let sheet = sheet::read(text, o.table, &mut y).map_err(|w| told::wrong(text, w))?;
    show(rt, sheet, &y, o)
}

fn main(rt: HostRuntime) {
    let _ = run(&rt);
}
