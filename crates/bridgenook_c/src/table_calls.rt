// The pair table. Its record goes in as numbers and comes out as values; region and spare go as they are.
ghost use Rattle.std.specs.Prelude.{◌≡◌};
ghost use Rattle.tables.specs.Calls.{new_of, blank_if, insert_of, insert_region, delete_of, delete_region, spare_after, clear_of, build_of, build_region, build_spare, list_of_items, extract_into, walk_into};
ghost use Rattle.bridgenook.specs.Exports.{Says};

#[unsafe(no_mangle)]
pub extern "C" fn bridgenook_table_new(
    lg: u8,
    valid: u8,
    region: &mut [u32],
    spare: &mut [u32],
    answer: &mut [u64; 8],
) -> u32
    ensures { Says (new_of region.old spare.old lg valid) result answer.new
        × (region.new ≡ blank_if (new_of region.old spare.old lg valid) region.old)
        × (spare.new ≡ blank_if (new_of region.old spare.old lg valid) spare.old) }
{
    bridgenook::table_calls::bridgenook_table_new(lg, valid, region, spare, answer)
}

#[unsafe(no_mangle)]
pub extern "C" fn bridgenook_table_build(
    valid: u8,
    list: &[u32],
    region: &mut [u32],
    spare: &mut [u32],
    answer: &mut [u64; 8],
) -> u32
    ensures { Says (build_of region.old spare.old valid list.now) result answer.new
        × (region.new ≡ build_region region.old spare.old valid list.now)
        × (spare.new ≡ build_spare region.old spare.old valid list.now) }
{
    bridgenook::table_calls::bridgenook_table_build(valid, list, region, spare, answer)
}

#[unsafe(no_mangle)]
pub extern "C" fn bridgenook_table_insert(
    lg: u8,
    valid: u8,
    items: u32,
    region: &mut [u32],
    spare: &mut [u32],
    item: u32,
    answer: &mut [u64; 8],
) -> u32
    ensures { Says (insert_of region.old spare.old lg valid items item) result answer.new
        × (region.new ≡ insert_region region.old spare.old lg valid items item)
        × (spare.new ≡ spare_after (insert_of region.old spare.old lg valid items item) spare.old) }
{
    bridgenook::table_calls::bridgenook_table_insert(lg, valid, items, region, spare, item, answer)
}

#[unsafe(no_mangle)]
pub extern "C" fn bridgenook_table_delete(
    lg: u8,
    valid: u8,
    items: u32,
    region: &mut [u32],
    spare: &mut [u32],
    item: u32,
    answer: &mut [u64; 8],
) -> u32
    ensures { Says (delete_of region.old spare.old lg valid items item) result answer.new
        × (region.new ≡ delete_region region.old spare.old lg valid items item)
        × (spare.new ≡ spare_after (delete_of region.old spare.old lg valid items item) spare.old) }
{
    bridgenook::table_calls::bridgenook_table_delete(lg, valid, items, region, spare, item, answer)
}

#[unsafe(no_mangle)]
pub extern "C" fn bridgenook_table_extract(
    lg: u8,
    valid: u8,
    items: u32,
    region: &[u32],
    spare: &[u32],
    out: &mut [u32],
    answer: &mut [u64; 8],
) -> u32
    ensures { Says (list_of_items region.now spare.now lg valid items out.old) result answer.new
        × (out.new ≡ extract_into region.now spare.now lg valid items out.old) }
{
    bridgenook::table_calls::bridgenook_table_extract(lg, valid, items, region, spare, out, answer)
}

#[unsafe(no_mangle)]
pub extern "C" fn bridgenook_table_walk(
    lg: u8,
    valid: u8,
    items: u32,
    region: &[u32],
    spare: &[u32],
    out: &mut [u32],
    answer: &mut [u64; 8],
) -> u32
    ensures { Says (list_of_items region.now spare.now lg valid items out.old) result answer.new
        × (out.new ≡ walk_into region.now spare.now lg valid items out.old) }
{
    bridgenook::table_calls::bridgenook_table_walk(lg, valid, items, region, spare, out, answer)
}

#[unsafe(no_mangle)]
pub extern "C" fn bridgenook_table_clear(
    lg: u8,
    valid: u8,
    items: u32,
    region: &mut [u32],
    spare: &mut [u32],
    answer: &mut [u64; 8],
) -> u32
    ensures { Says (clear_of region.old spare.old lg valid items) result answer.new
        × (region.new ≡ blank_if (clear_of region.old spare.old lg valid items) region.old)
        × (spare.new ≡ blank_if (clear_of region.old spare.old lg valid items) spare.old) }
{
    bridgenook::table_calls::bridgenook_table_clear(lg, valid, items, region, spare, answer)
}
