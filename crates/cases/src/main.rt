// Answers the stored journal on standard input; what it writes is held to the reference program's answers. It is stocksheet again,
// as a crate of its own, since a crate is run on one stored input.
#![tactic(auto)]

use journal::serve::serve;

fn main(rt: HostRuntime) -> anyhow::Result<()> {
    serve(rt.alloc(), &mut rt.stdin(), &mut rt.stdout())?;
    Ok(())
}
