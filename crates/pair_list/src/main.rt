// Lists a day of pairs of phases and modules: a day file on standard input, its records in words on standard output.
#![tactic(auto)]

use amount::{Modules, Pair, Phases};
use console::list_input;

fn main(rt: HostRuntime) -> anyhow::Result<()> {
    list_input::<Pair<Phases, Modules>>(&rt)
}
