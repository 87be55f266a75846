// Runs of 1000 vectors, each under another mounting.

// The run is the whole log: 3000 floats.
#[unsafe(no_mangle)]
pub extern "C" fn port_turn(log: &[f32], count: u32) -> u32 {
    let mut turned = [0f32; 3000];
    let mut sum = 0u32;
    for i in 0..count {
        // What is refused leaves the run as it was.
        let _ = turning::turn_run((i % 24) as u8, log, &mut turned);
        sum = sum.wrapping_add(wire::bits_of(turned[(i % 3000) as usize]));
    }
    sum
}
