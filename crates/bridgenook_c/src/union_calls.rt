// Matrices and unions. A union's record and a source's go in as numbers, a union's comes out as values; matrix, window and pairs go as they are.
ghost use Rattle.std.specs.Prelude.{◌≡◌};
ghost use Rattle.matrices.specs.Calls.{count_of, split_of, split_window, split_pairs, expand_of, expanded_matrix, new_union_of, new_matrix, merge_of, merged_matrix};
ghost use Rattle.bridgenook.specs.Exports.{Says};

#[unsafe(no_mangle)]
pub extern "C" fn bridgenook_count(lg: u8, matrix: &[u64], answer: &mut [u64; 8]) -> u32
    ensures { Says (count_of lg matrix.now) result answer.new }
{
    bridgenook::union_calls::bridgenook_count(lg, matrix, answer)
}

#[unsafe(no_mangle)]
pub extern "C" fn bridgenook_split(
    lg: u8,
    matrix: &[u64],
    window: &mut [u8],
    pairs: &mut [u32],
    answer: &mut [u64; 8],
) -> u32
    ensures { Says (split_of lg matrix.now window.old pairs.old) result answer.new
        × (window.new ≡ split_window lg matrix.now window.old pairs.old)
        × (pairs.new ≡ split_pairs lg matrix.now window.old pairs.old) }
{
    bridgenook::union_calls::bridgenook_split(lg, matrix, window, pairs, answer)
}

#[unsafe(no_mangle)]
pub extern "C" fn bridgenook_expand(
    lg: u8,
    coupons: u32,
    window: &[u8],
    pairs: &[u32],
    matrix: &mut [u64],
    answer: &mut [u64; 8],
) -> u32
    ensures { Says (expand_of lg coupons window.now pairs.now matrix.old) result answer.new
        × (matrix.new ≡ expanded_matrix lg coupons window.now pairs.now matrix.old) }
{
    bridgenook::union_calls::bridgenook_expand(lg, coupons, window, pairs, matrix, answer)
}

#[unsafe(no_mangle)]
pub extern "C" fn bridgenook_new_union(
    lg: u8,
    seed: u64,
    matrix: &mut [u64],
    answer: &mut [u64; 8],
) -> u32
    ensures { Says (new_union_of lg seed matrix.old) result answer.new × (matrix.new ≡ new_matrix lg seed matrix.old) }
{
    bridgenook::union_calls::bridgenook_new_union(lg, seed, matrix, answer)
}

#[unsafe(no_mangle)]
pub extern "C" fn bridgenook_merge(
    lg: u8,
    present: u8,
    seed: u64,
    matrix: &mut [u64],
    from: u8,
    other: u64,
    coupons: u32,
    window: &[u8],
    pairs: &[u32],
    answer: &mut [u64; 8],
) -> u32
    ensures { Says (merge_of lg present seed matrix.old from other coupons window.now pairs.now) result answer.new
        × (matrix.new ≡ merged_matrix lg present seed matrix.old from other coupons window.now pairs.now) }
{
    bridgenook::union_calls::bridgenook_merge(
        lg, present, seed, matrix, from, other, coupons, window, pairs, answer,
    )
}
