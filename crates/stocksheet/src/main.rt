// Reads a journal on standard input, makes its calls, and writes what they answered on standard output.
#![tactic(auto)]

use journal::serve::serve;

fn main(rt: HostRuntime) -> anyhow::Result<()> {
    serve(rt.alloc(), &mut rt.stdin(), &mut rt.stdout())?;
    Ok(())
}
