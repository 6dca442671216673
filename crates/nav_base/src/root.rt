//! Square roots of whole numbers, rounded up.

ghost use Rattle.std.specs.Prelude.{◌≡◌, ◌≤◌, ◌<◌, ◌+◌, ◌*◌, ◌/◌, ◌^◌, IsTrue};
ghost use Rattle.nav_base.specs.Root.{IsLeastRoot, IsNearRoot, ceil_sqrt_of};

/// The least number whose square is at least `n`.
pub fn ceil_sqrt(n: u64) -> u32
    requires { n ≤ 4294967295 * 4294967295 }
    ensures value { result ≡ ceil_sqrt_of n }
    ensures least { IsLeastRoot n result }
{
    if n == 0 {
        return 0;
    }
    if n < 4294967296 {
        let guess = guessed_root(n as u32);
        if is_least_root(n, guess) {
            return guess;
        }
    }
    let near = near_root(n);
    if near * near < n {
        (near + 1) as u32
    } else {
        near as u32
    }
}

// A guess at the least number whose square is at least `n`, of which nothing is promised: Heron's step from the root that the table has for the
// eight highest digits, which is off by at most one part in 255, and one more where the square of that is too small.
fn guessed_root(n: u32) -> u32
    requires { 0 < n }
{
    let pairs = n.leading_zeros() / 2;
    let leading = (n << (2 * pairs)) >> 24;
    let first = (u32::from(ROOTS[leading as usize]) >> pairs).max(1);
    let next = first.wrapping_add(n / first) / 2;
    if u64::from(next) * u64::from(next) < u64::from(n) {
        next.wrapping_add(1)
    } else {
        next
    }
}

// Whether a number is the least whose square is at least `n`.
fn is_least_root(n: u64, root: u32) -> bool
    ensures { IsTrue result → IsLeastRoot n root }
{
    let root = u64::from(root);
    n <= root * root && (root == 0 || (root - 1) * (root - 1) < n)
}

// For each number below 256 the root of that number and a half, times 4096, rounded.
static ROOTS: [u16; 256] = [
    2896, 5017, 6476, 7663, 8689, 9606, 10443, 11217, 11942, 12625, 13273, 13890, 14482, 15050,
    15597, 16126, 16638, 17135, 17618, 18087, 18545, 18992, 19429, 19856, 20274, 20684, 21085,
    21480, 21867, 22247, 22621, 22989, 23351, 23707, 24059, 24405, 24746, 25083, 25415, 25743,
    26067, 26387, 26703, 27015, 27324, 27629, 27931, 28230, 28525, 28818, 29108, 29394, 29678,
    29960, 30238, 30515, 30788, 31059, 31328, 31595, 31859, 32122, 32382, 32640, 32896, 33150,
    33402, 33652, 33900, 34147, 34392, 34635, 34876, 35116, 35354, 35590, 35825, 36059, 36291,
    36521, 36750, 36978, 37204, 37429, 37652, 37874, 38095, 38315, 38533, 38750, 38966, 39181,
    39394, 39606, 39818, 40028, 40237, 40445, 40652, 40857, 41062, 41266, 41469, 41671, 41871,
    42071, 42270, 42468, 42665, 42861, 43057, 43251, 43445, 43637, 43829, 44020, 44210, 44400,
    44588, 44776, 44963, 45149, 45334, 45519, 45703, 45886, 46069, 46250, 46431, 46612, 46791,
    46970, 47149, 47326, 47503, 47679, 47855, 48030, 48204, 48378, 48551, 48723, 48895, 49067,
    49237, 49407, 49577, 49746, 49914, 50082, 50249, 50416, 50582, 50747, 50912, 51077, 51241,
    51404, 51567, 51730, 51892, 52053, 52214, 52374, 52534, 52694, 52853, 53011, 53169, 53327,
    53484, 53640, 53797, 53952, 54108, 54262, 54417, 54571, 54724, 54877, 55030, 55182, 55334,
    55485, 55636, 55787, 55937, 56087, 56236, 56385, 56534, 56682, 56830, 56977, 57124, 57271,
    57417, 57563, 57709, 57854, 57999, 58143, 58287, 58431, 58574, 58717, 58860, 59002, 59144,
    59286, 59427, 59568, 59709, 59849, 59989, 60129, 60268, 60407, 60546, 60684, 60822, 60960,
    61098, 61235, 61372, 61508, 61644, 61780, 61916, 62051, 62186, 62321, 62456, 62590, 62724,
    62857, 62991, 63124, 63256, 63389, 63521, 63653, 63785, 63916, 64047, 64178, 64309, 64439,
    64569, 64699, 64828, 64957, 65086, 65215, 65344, 65472,
];

// A number within one of the root of `n`.
fn near_root(n: u64) -> u64
    requires some { 0 < n }
    requires small { n ≤ 4294967295 * 4294967295 }
    ensures near { IsNearRoot n result }
    ensures small { result ≤ 4294967295 }
{
    let pairs = n.leading_zeros() / 2;
    near_root_of_large(n << (2 * pairs)) >> pairs
}

// The same for a number with one of its two highest digits. Each step doubles how many digits of the root are known.
fn near_root_of_large(n: u64) -> u64
    requires { 2 ^ 62 ≤ n }
    ensures { IsNearRoot n result }
{
    let two_digits = 1 + (n >> 62);
    let four_digits = nearer_root(n >> 56, two_digits, 1);
    let eight_digits = nearer_root(n >> 48, four_digits, 3);
    let sixteen_digits = nearer_root(n >> 32, eight_digits, 7);
    nearer_root(n, sixteen_digits, 15)
}

// A number within one of the root of `n`, from `near` within one of the root of `n` without its last `2 * digits + 2` digits:
// the mean of `near`, as long as the root, and the quotient of `n` by that.
fn nearer_root(n: u64, near: u64, digits: u32) -> u64
    requires few { digits ≤ 15 }
    requires leading { 2 ^ (2 * digits) ≤ n / 2 ^ (2 * digits + 2) }
    requires near { IsNearRoot (n / 2 ^ (2 * digits + 2)) near }
    ensures { IsNearRoot n result }
{
    (near << digits) + (n >> (digits + 2)) / near
}
