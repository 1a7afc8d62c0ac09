//! What scenes print.
use anyhow::anyhow;
use output::writer::Writer;
use registers::listing::list_registers;
use std::io::Write;
use stores::store::Store;
use values::value::Value;

/// Prints what is written of an output.
pub(crate) fn print_written(rt: &HostRuntime, out: &[u8], writer: &Writer) -> anyhow::Result<()> {
    let end = writer.mark.min(out.len());
    rt.stdout().write_all(&out[..end])?;
    Ok(())
}

/// Prints every filled register.
pub(crate) fn print_registers<S: Store<V>, V: Value>(
    rt: &HostRuntime,
    store: &S,
    pool: &V::Pool,
) -> anyhow::Result<()> {
    let mut out = [0u8; 1024];
    let mut writer = Writer::new();
    let answer = list_registers(store, pool, &mut writer, &mut out);
    print_written(rt, &out, &writer)?;
    answer.map_err(|_| anyhow!("the listing does not fit: give it more memory"))
}
