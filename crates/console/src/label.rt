// The targets of a plan file by label.
use crate::show;
use crate::stop::Stop;
use labels::Label;
use std::io;

pub(crate) fn print_file<'a>(rt: &HostRuntime, name: &'a str) -> Result<(), Stop<'a>> {
    let file = show::accept(rt, name)?;
    let targets = show::targets_of(rt.alloc(), &file)?;
    let mut order = vec![in rt.alloc(); Label::default(); targets.len()]?;
    labels::labels(&targets, &mut order).map_err(|fault| Stop::Labels { name, fault })?;
    print_labels(rt, &order)?;
    Ok(())
}

fn print_labels(rt: &HostRuntime, order: &[Label]) -> io::Result<()> {
    for (i, target) in order.iter().enumerate() {
        let label = i + 1;
        let Label { number, range, .. } = target;
        println!(rt; "  label {label:>3}: target {number} at {range} m")?;
    }
    Ok(())
}
