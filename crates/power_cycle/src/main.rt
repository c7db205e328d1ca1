// The panel over a power cycle: a sheet that is one stretch of a run. It goes on from a saved run, or begins one, and is saved, or is the last. A program
// of its own: with the smoother's call beside a stretch's, the check of one would take more than 3 GB. tools/panel chooses between the two.
#![tactic(auto)]

mod saved_run;

ghost use Rattle.std.specs.Prelude.{◌≤◌};

use options::Options;
use rows::Run;
use sheet::answers::Sheet;
use std::env::Env;
use std::fs::Files;
use table::Shown;
use told::Told;

// The estimates of a sheet that is well. The saved run is read whole before anything is written, so that it may be saved under its own name. The run is
// saved before anything is printed: where that fails, nothing is.
fn show<R: Env + Files>(rt: &R, sheet: Sheet, y: &[f64], o: Options) -> Result<(), Told>
    requires { sheet.periods ≤ 4096 }
{
    let mut space = [0; saved_run::ROOM];
    let before = saved_run::read(rt, o.from, &mut space)?;
    let mut rows = [0.0; rows::NUMBERS];
    let mut kinds = [0; rows::KINDS];
    let mut after = [0; resumed::BYTES];
    let a = resumed::estimate(
        sheet,
        y,
        before,
        o.save.is_none(),
        &mut rows,
        &mut kinds,
        &mut after,
    )
    .map_err(told::refusal)?;
    if let Some(save) = o.save {
        saved_run::write(rt, save, &after)?;
    }
    table::print(
        Shown {
            inputs: sheet.settings.noise.inputs(),
            smooth: false,
            table: false,
        },
        resumed::done(before),
        Run {
            n: sheet.periods,
            period: sheet.settings.period,
            y,
            kinds: &kinds,
            rows: &rows,
        },
    );
    table::totals(a, false);
    Ok(())
}

fn run<R: Env + Files>(rt: &R) -> Result<(), Told> {
    let o = options::given(rt)?;
    let mut space = [0; options::SPACE];
    let text = options::text(rt, o.sheet, &mut space)?;
    let mut y = [0.0; rows::READINGS];
    let sheet = sheet::read(text, o.table, &mut y).map_err(|w| told::wrong(text, w))?;
    show(rt, sheet, &y, o)
}

fn main(rt: HostRuntime) {
    let _ = run(&rt);
}
