// The listing of a text at all limits: 4,096 bytes, 1,024 lexemes, 64 open at once.
#![tactic(auto)]

fn main(rt: HostRuntime) {
    let _ = report::print_listing(&mut rt.stdin(), &mut rt.stdout(), &mut rt.stderr());
}
