// Random trials: what the crates answer, beside plain code that is written separately and as simply as can be. A line a subject with counts,
// or the first difference in full. All starts are fixed, so that every run prints the same.
#![tactic(auto)]

mod brute_force;
mod closures;
mod days;
mod generator;
mod implications;
mod key_lists;
mod least_sets;
mod made_designs;
mod one_table;
mod other_designs;
mod plain_design;
mod plain_rules;
mod small_tables;
mod splittings;
mod verdicts;
mod whole_tables;

// A subject is a module with a function `run`; a further one is called here, behind the others, so that their numbers stay.
fn run(rt: &HostRuntime) -> anyhow::Result<()> {
    days::run(rt)?;
    closures::run(rt)?;
    key_lists::run(rt)?;
    implications::run(rt)?;
    verdicts::run(rt)?;
    made_designs::run(rt)?;
    least_sets::run(rt)?;
    other_designs::run(rt)?;
    whole_tables::run(rt)
}

fn main(rt: HostRuntime) -> anyhow::Result<()> {
    run(&rt)
}
