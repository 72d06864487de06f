/// The output of an interface, which is counted through the file from 0.
#[derive(Drop)]
pub struct Output<K> {
    pub interface: u32,
    pub sink: K,
}
