// Lists a day of phases: a day file on standard input, its records in words on standard output.
#![tactic(auto)]

use amount::Phases;
use console::list_input;

fn main(rt: HostRuntime) -> anyhow::Result<()> {
    list_input::<Phases>(&rt)
}
