// How bytes of a line of the cases are written.
// What standard output does not take is let go: who compares the lines misses them.
pub(crate) fn say(rt: HostRuntime, text: &[u8]) {
    let _ = rt.write_all(text);
}
