//! Terms, and the number of the first fault of each with the date of the call at fault, or that they
//! passed every test.

pub const TERMS: &str = "\
# Dates that are not in order
base periodic coupon=4 fault=2
dated=2022-07-01 first=2022-07-01 maturity=2044-01-01
dated=2022-01-01 first=2044-07-01 maturity=2044-01-01
dated=1901-12-31 first=1902-07-01 maturity=1903-01-01
# A day that is no interest day
base periodic dated=2022-01-01 coupon=0 fault=3
first=2022-06-29 maturity=2043-12-29
first=2022-07-01 maturity=2044-02-01
first=2022-07-01 maturity=2044-01-02
first=2022-07-01 maturity=2199-06-01
base
zero dated=2022-01-01 maturity=2044-01-29 fault=3
# A coupon stands exactly where there is interest
periodic dated=2022-01-01 first=2023-01-02 maturity=2144-01-02 coupon=0 fault=4
base dated=2022-01-01 maturity=2144-01-01 fault=4
zero coupon=0.0000001
discount coupon=0.0000001
at-redemption coupon=0
# Days are counted by actual/365 for notes alone
base actual/365
periodic dated=2022-01-01 first=2023-01-02 maturity=2144-01-02 coupon=4 fault=11
zero dated=2022-01-01 maturity=2144-01-01 fault=11
zero dated=2022-01-01 maturity=2144-01-01 coupon=4 fault=4
discount dated=2024-01-01 maturity=2025-12-21 passed
discount dated=2024-01-01 maturity=2025-12-22 fault=9
# A first interest of 361 days, and of 360
base periodic dated=2022-01-01 coupon=4
first=2023-01-02 maturity=2144-01-02 fault=5
first=2023-01-01 maturity=2044-01-01 passed
# 100 half years, and more
base zero maturity=2000-01-01
dated=1950-01-01 passed
dated=1949-12-31 fault=9
base
periodic dated=1949-12-31 first=1950-07-01 maturity=2000-01-01 coupon=4 call=1950-02-01:0 fault=9
periodic dated=1902-01-01 first=1902-07-01 maturity=2199-07-01 coupon=4 fault=9
discount dated=2024-01-01 maturity=2026-01-02 fault=9
# The first call with a fault
base periodic dated=2022-01-01 first=2022-07-01 maturity=2044-01-01 coupon=4
call=2028-02-01:0.5 call=2027-01-01:0.5 fault=6 at=2028-02-01
call=2028-01-01:100 call=2028-01-01:0.5 fault=7 at=2028-01-01
call=2028-01-01:200 call=2029-01-01:0.999999 fault=8 at=2029-01-01
# Called from the first interest date up to the maturity
call=2022-07-01:1 call=2043-07-01:200 passed
call=2022-01-01:100 fault=6 at=2022-01-01
call=2044-01-01:100 fault=6 at=2044-01-01
# The usual terms
passed";
